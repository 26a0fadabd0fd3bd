//! The lines of sessions, one call each. No call takes memory.
ghost use Rattle.std.specs.Prelude.{◌≡◌, codes};
ghost use Rattle.play_script.specs.Texts as texts;

use crate::Cause;
use crate::lines::refused;
use crate::text::Word::{Long, Plain, Short};
use crate::text::{Text, line};

/// An opened session, and the stamp at which it reads the rows.
#[tactic(auto, unfolding(crate::specs::Texts::begin_done))]
pub fn begin_done(sid: u64, stamp: u64) -> Text
    ensures { result ≡ texts.begin_done sid stamp }
{
    line("begin", &[Long(sid), Plain("stamp"), Long(stamp)])
}

/// A step: how many cells and rows its session has visited by now, how many of these rows needed a full distance, and
/// whether the visit is over.
#[tactic(auto, unfolding(crate::specs::Texts::step_done))]
pub fn step_done(sid: u64, cells: u32, live: u32, full: u32, ended: bool) -> Text
    ensures { result ≡ texts.step_done sid cells live full ended }
{
    let how = if ended { "ended" } else { "more" };
    line(
        "step",
        &[
            Long(sid),
            Plain("cells"),
            Short(cells),
            Plain("live"),
            Short(live),
            Plain("full"),
            Short(full),
            Plain(how),
        ],
    )
}

/// The end of a session whose visit was over: what its last step told.
#[tactic(auto, unfolding(crate::specs::Texts::session_done))]
pub fn session_done(sid: u64, cells: u32, live: u32, full: u32) -> Text
    ensures { result ≡ texts.session_done sid cells live full }
{
    line(
        "session",
        &[
            Long(sid),
            Plain("cells"),
            Short(cells),
            Plain("live"),
            Short(live),
            Plain("full"),
            Short(full),
        ],
    )
}

/// The end of a session before its visit was over.
#[tactic(auto, unfolding(crate::specs::Texts::session_dropped))]
pub fn session_dropped(sid: u64) -> Text
    ensures { result ≡ texts.session_dropped sid }
{
    line("session", &[Long(sid), Plain("dropped")])
}

/// A refused opening.
pub fn begin_refused(sid: u64, cause: Cause) -> Text
    ensures { result ≡ texts.refused (codes "begin") sid cause }
{
    refused("begin", sid, cause)
}

/// A refused step.
pub fn step_refused(sid: u64, cause: Cause) -> Text
    ensures { result ≡ texts.refused (codes "step") sid cause }
{
    refused("step", sid, cause)
}

/// A refused end.
pub fn end_refused(sid: u64, cause: Cause) -> Text
    ensures { result ≡ texts.refused (codes "end") sid cause }
{
    refused("end", sid, cause)
}
