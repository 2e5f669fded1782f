//! How a chain is made, as the words of a line say it.

use super::hasher::Faulty;
use denial::{GenerateNsec3Config, GenerateNsecConfig, Nsec3ParamTtlMode, Nsec3Salt, Nsec3param};
use plain::Ttl;
use test_lines::Line;

/// The options of a line.
#[derive(Drop)]
pub struct Options {
    without_keys: bool,
    opt_out: bool,
    covering: bool,
    mode: Option<Nsec3ParamTtlMode>,
    pub hasher: Option<Faulty>,
}

impl Options {
    /// The options from a word of a line on. What stands behind `by` is passed over.
    pub fn read(line: &mut Line<'_>, place: usize) -> Options {
        let mut options = Options {
            without_keys: false,
            opt_out: false,
            covering: false,
            mode: None,
            hasher: None,
        };
        let words = line.rest(place);
        let (words, _) = words.split_once("by ").unwrap_or((words, ""));
        for word in words.split(' ') {
            options.take(line, word);
        }
        options
    }

    fn take(&mut self, line: &mut Line<'_>, word: &str) {
        match word {
            "" => {}
            "without-keys" => self.without_keys = true,
            "opt-out" => self.opt_out = true,
            "covering-all" => self.covering = true,
            "ttl=soa" => self.mode = Some(Nsec3ParamTtlMode::soa()),
            "ttl=minimum" => self.mode = Some(Nsec3ParamTtlMode::soa_minimum()),
            _ => self.take_value(line, word),
        }
    }

    /// Takes a word that has a value.
    fn take_value(&mut self, line: &mut Line<'_>, word: &str) {
        let (word, value) = word.split_once('=').unwrap_or(("", ""));
        match word {
            "ttl" => {
                let seconds = line.read_u32(value);
                self.mode = Some(Nsec3ParamTtlMode::fixed(Ttl::from_secs(seconds)));
            }
            "hashes" => {
                let (answer, fails_at) = value.split_once(',').unwrap_or(("", ""));
                self.hasher = Some(Faulty {
                    answer: line.read_octets(answer),
                    fails_at: line.read_octets(fails_at),
                });
            }
            _ => line.lose(),
        }
    }

    pub fn of_names(&self) -> GenerateNsecConfig {
        let config = GenerateNsecConfig::new();
        if self.without_keys {
            config.without_assuming_dnskeys_will_be_added()
        } else {
            config
        }
    }

    /// A chain of hashed names with these iterations and this salt.
    pub fn of_hashes(&self, count: u16, salt: Vec<u8>) -> Option<GenerateNsec3Config<Vec<u8>>> {
        match Nsec3Salt::from_octets(salt) {
            Ok(salt) => {
                let params = Nsec3param::new(1, 0, count, salt);
                Some(self.put_into(GenerateNsec3Config::new(params)))
            }
            Err(_) => None,
        }
    }

    fn put_into(&self, config: GenerateNsec3Config<Vec<u8>>) -> GenerateNsec3Config<Vec<u8>> {
        let mut config = config;
        if self.without_keys {
            config = config.without_assuming_dnskeys_will_be_added();
        }
        if self.opt_out {
            config = config.with_opt_out();
        }
        if self.covering {
            config = config.without_opt_out_excluding_owner_names_of_unsigned_delegations();
        }
        match self.mode {
            Some(mode) => config.with_ttl_mode(mode),
            None => config,
        }
    }
}
