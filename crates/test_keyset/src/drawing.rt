//! A roll drawn against time (SVG 1.1): what is shown behind each call, how long it may be in use
//! once it is replaced, and the waits.

use crate::lives::{in_report1, in_report2};
use crate::scenes::{Scene, Thing};
use std::fmt::Display;
use test_lines::Line;

/// Draws the last roll of some scenes; the one before its start is what was shown until then.
pub fn draw(line: &mut Line<'_>, scenes: &[Scene]) {
    let mut start = 0usize;
    for (place, scene) in scenes.iter().enumerate() {
        if scene.step == "start" {
            start = place;
        }
    }
    match scenes.split_at_checked(start) {
        Some((before, steps)) => match (before.last(), steps.last()) {
            (Some(before), Some(last)) => {
                let mut sheet = Sheet::new(line, last.now);
                sheet.draw(before, steps);
                sheet.end(line);
            }
            _ => line.lose(),
        },
        None => line.lose(),
    }
}

/// How many pixels a second is wide.
const SECOND: u64 = 3;
/// How many seconds are drawn before the start and behind the last call.
const MARGIN: u64 = 66;
/// How many pixels stand left of all moments.
const LEFT: u64 = 90;
/// Where the first lane begins, how high a row is, and how far one lane is from the next.
const TOP: u64 = 44;

const ROW: u64 = 22;

const LANE: u64 = 62;
/// Where the lanes end, and the height of the whole.
const BOTTOM: u64 = 248;

const HEIGHT: u64 = 284;

const LANES: [(Thing, &str, u64); 3] = [
    (Thing::DsSet, "DS set", TOP),
    (Thing::DnskeyAnswer, "DNSKEY set", TOP + LANE),
    (Thing::ZoneAnswer, "signatures", TOP + 2 * LANE),
];

const STYLE: &str =
    "<style>text { font: 12px sans-serif; fill: #222 } .middle { text-anchor: middle } \
    .shown { fill: #d3e6f8; stroke: #2f6296 } \
    .replaced { fill: #fdebd0; stroke: #b5772a; stroke-dasharray: 4 3 } \
    .wait { fill: #edf2dc } .call { stroke: #777; stroke-dasharray: 2 3 }</style>";

/// The place of a moment.
fn place(now: u64) -> u64 {
    LEFT.saturating_add(now.saturating_add(MARGIN).saturating_mul(SECOND))
}

/// Until when what a call replaced may be in use: a report says that all servers have what came
/// then, and its TTL passes.
fn replaced_until(steps: &[Scene], call: &Scene, thing: Thing) -> Option<u64> {
    let report = match call.step {
        "start" if in_report1(call.roll, thing) => "report 1",
        "start" | "wait 1" if in_report2(call.roll, thing) => "report 2",
        _ => return None,
    };
    let reported = steps.iter().find(|scene| scene.step == report)?;
    Some(reported.now.saturating_add(reported.wait?.ttl))
}

/// A drawing as far as it is written, its lines in the answer.
#[derive(Drop)]
struct Sheet<'l> {
    lines: Line<'l>,
    width: u64,
}

impl<'l> Sheet<'l> {
    fn new(line: &Line<'l>, last: u64) -> Sheet<'l> {
        Sheet {
            lines: line.aside(""),
            width: place(last.saturating_add(MARGIN)),
        }
    }

    fn line(&mut self, line: impl Display + Drop) {
        self.lines.value(&line);
        self.lines.mark("\n");
    }

    fn end(self, line: &mut Line<'l>) {
        let Sheet {
            mut lines,
            width: _,
        } = self;
        lines.mark("</svg>");
        line.append(lines);
    }

    fn draw<'s>(&mut self, before: &'s Scene, steps: &'s [Scene]) {
        let width = self.width.saturating_add(8);
        self.line(format_args!(
            "<svg xmlns=\"http://www.w3.org/2000/svg\" width=\"{width}\" height=\"{HEIGHT}\" \
            viewBox=\"0 0 {width} {HEIGHT}\">"
        ));
        self.line(STYLE);
        self.line(format_args!("<rect width=\"{width}\" height=\"{HEIGHT}\" fill=\"#fff\"/>"));
        for step in steps {
            self.draw_wait(step);
        }
        for step in steps {
            self.draw_call(step);
        }
        for (thing, name, top) in LANES {
            self.write(8, top.saturating_add(15), name);
            self.draw_lane(before, steps, thing, top);
        }
        self.draw_legend();
    }

    /// Writes a text from a place on, its letters standing on a line.
    fn write(&mut self, x: u64, line: u64, text: &str) {
        self.line(format_args!("<text x=\"{x}\" y=\"{line}\">{text}</text>"));
    }

    /// Writes a text on both sides of a place.
    fn write_about(&mut self, x: u64, line: u64, text: impl Display + Drop) {
        self.line(format_args!("<text class=\"middle\" x=\"{x}\" y=\"{line}\">{text}</text>"));
    }

    /// Draws a rectangle between two places, of a height in pixels.
    fn bar(&mut self, class: &str, (from, to): (u64, u64), top: u64, height: u64) {
        let width = to.saturating_sub(from);
        self.line(format_args!(
            "<rect class=\"{class}\" x=\"{from}\" y=\"{top}\" width=\"{width}\" height=\"{height}\"/>"
        ));
    }

    /// A wait, behind all lanes.
    fn draw_wait(&mut self, step: &Scene) {
        let Some(wait) = step.wait else {
            return;
        };
        if wait.end <= step.now {
            return;
        }
        let (from, to, ttl) = (place(step.now), place(wait.end), wait.ttl);
        self.bar("wait", (from, to), 34, BOTTOM.saturating_sub(34));
        let x = from.saturating_add(to) / 2;
        let line = BOTTOM.saturating_sub(6);
        self.write_about(x, line, format_args!("wait, TTL {ttl}"));
    }

    /// A call with its moment.
    fn draw_call(&mut self, step: &Scene) {
        let (x, now) = (place(step.now), step.now);
        self.write_about(x, 14, step.step);
        self.write_about(x, 29, format_args!("at {now}"));
        self.line(format_args!(
            "<line class=\"call\" x1=\"{x}\" y1=\"34\" x2=\"{x}\" y2=\"{BOTTOM}\"/>"
        ));
    }

    /// A lane: above what is shown, below what was replaced and may be in use.
    fn draw_lane<'s>(&mut self, before: &'s Scene, steps: &'s [Scene], thing: Thing, top: u64) {
        let below = top.saturating_add(ROW).saturating_add(3);
        let mut shown = before.content(thing);
        let mut from = LEFT;
        for step in steps {
            if step.content(thing) != shown {
                let now = place(step.now);
                let end = match replaced_until(steps, step, thing) {
                    Some(moment) => place(moment),
                    None => self.width,
                };
                self.draw_content("shown", (from, now), top, shown);
                self.draw_content("replaced", (now, end), below, shown);
                from = now;
                shown = step.content(thing);
            }
        }
        let end = self.width;
        self.draw_content("shown", (from, end), top, shown);
    }

    fn draw_content(&mut self, class: &str, (from, to): (u64, u64), top: u64, content: &str) {
        self.bar(class, (from, to), top, ROW);
        self.write(from.saturating_add(5), top.saturating_add(15), content);
    }

    fn draw_legend(&mut self) {
        let (top, line) = (BOTTOM.saturating_add(12), BOTTOM.saturating_add(25));
        for (class, x, text) in [
            ("shown", LEFT, "shown"),
            (
                "replaced",
                LEFT.saturating_add(90),
                "replaced, and perhaps in use",
            ),
            ("wait", LEFT.saturating_add(300), "a wait"),
        ] {
            self.bar(class, (x, x.saturating_add(16)), top, 16);
            self.write(x.saturating_add(22), line, text);
        }
    }
}
