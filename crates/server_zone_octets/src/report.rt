//! What is said beside a code.
ghost use Rattle.std.specs.Prelude.{◌≡◌, ◌==◌};
ghost use Rattle.server_zone_octets.specs.Telling.{is_known, told_report};

/// What is said of a call beside its code.
#[repr(C)]
#[derive(Clone, Copy, Debug)]
pub struct ZoneReport {
    /// How many octets the report has as its caller knows it: 40.
    pub size: usize,
    /// How many octets are told.
    pub len: usize,
    /// The line at which a journal is refused, counted from 1 on; else 0.
    pub line: usize,
    /// How many octets the whole lines of a journal have.
    pub whole: usize,
    /// How many octets of a journal stand up to the last line behind which no records wait for
    /// their replacement.
    pub settled: usize,
}

/// How many octets a report has in memory.
const REPORT_SIZE: usize = 40;

const _: () = prove!(size_of::<ZoneReport>() == REPORT_SIZE);

impl ZoneReport {
    /// Whether its caller knows the same report.
    pub(crate) fn is_known(&self) -> bool
        ensures { result ≡ is_known self.now }
    {
        self.size == REPORT_SIZE
    }

    /// A report of so many octets.
    pub(crate) fn of(len: usize) -> Self
        ensures { result ≡ told_report len }
    {
        ZoneReport {
            size: REPORT_SIZE,
            len,
            line: 0,
            whole: 0,
            settled: 0,
        }
    }
}
