// Records of a script: what stands at a place of its bytes.
ghost use Rattle.std.specs.Prelude.{◌≡◌, ◌+◌, ◌≤◌, length};
ghost use Rattle.setcheck.specs.Configs.{config_of};
ghost use Rattle.format.specs.Answers.{Placed, reading};
ghost use Rattle.format.specs.Bytes.{u16_at};
ghost use Rattle.format.specs.Format.{config_from, payload_at, read_at, record_at};
ghost use Rattle.format.specs.Whole.{ModeIs, PayloadPlaced, Whole, payload_reading};

use crate::inner::bytes::{u16_at, u32_at, u64_at};
use crate::payloads::payload_fits;
use setcheck::AtnConfig;
use words::{Alternative, ContextId, ReturnState, SemanticId};

// A record on the set: a new one, and whether it merges by wildcard; a config to add; a verdict; a
// set to close; why the verdict is what it is.
#[derive(Clone, Copy)]
pub enum SetRecord {
    NewSet(bool),
    Add(AtnConfig),
    Verdict,
    Close,
    Why,
}

// A record: a state over a parent; two contexts to merge, and whether by wildcard; a context to
// show; stop states, by the place of their words and their number; or one on the set.
#[derive(Clone, Copy)]
pub enum Record {
    Singleton(ContextId, ReturnState),
    Merge(ContextId, ContextId, bool),
    Show(ContextId),
    Stops(usize, usize),
    OnSet(SetRecord),
}

// What stands at a place: a record, with the place of the next one; the end; or what no record is.
// Kept for its three outcomes, matched at once: a Result of an Option would nest them, and want an error type of its own.
#[derive(Clone, Copy)]
pub enum Step {
    Found(Record, usize),
    End,
    Malformed,
}

// Reads a mode: 0 is full, 1 is wildcard, and there is no other.
fn read_mode(byte: u8) -> Option<bool>
    ensures { ModeIs byte result }
{
    match byte {
        0 => Some(false),
        1 => Some(true),
        _ => None,
    }
}

// Reads a config, of 24 bytes from `at` on.
#[tactic(auto, unfolding(crate::specs::Format::config_from))]
fn read_config(bytes: &[u8], at: usize) -> AtnConfig
    requires { at + 24 ≤ length bytes.now }
    ensures { config_of result ≡ config_from bytes.now at }
{
    AtnConfig {
        state: u32_at(bytes, at),
        alt: Alternative(u32_at(bytes, at + 4)),
        context: ContextId(u32_at(bytes, at + 8)),
        semantic_context: SemanticId(u32_at(bytes, at + 12)),
        reaches_into_outer_context: u32_at(bytes, at + 16),
        semantic_provenance_and_flags: u32_at(bytes, at + 20),
    }
}

// Reads a payload of the right length, from `at` to `next`.
#[tactic(auto, using(crate::specs::Format::Laws::payload_laws))]
fn read_payload(bytes: &[u8], kind: u32, at: usize, next: usize) -> Option<Record>
    requires { Whole bytes.now kind at next }
    ensures { (payload_reading bytes.now next result ≡ payload_at bytes.now kind at next) × PayloadPlaced bytes.now next result }
{
    match kind {
        1 => {
            let parent = ContextId(u32_at(bytes, at));
            let state = ReturnState(u64_at(bytes, at + 4));
            Some(Record::Singleton(parent, state))
        }
        2 => {
            let left = ContextId(u32_at(bytes, at));
            let right = ContextId(u32_at(bytes, at + 4));
            let wildcard = read_mode(bytes[at + 8])?;
            Some(Record::Merge(left, right, wildcard))
        }
        3 => {
            let wildcard = read_mode(bytes[at])?;
            Some(Record::OnSet(SetRecord::NewSet(wildcard)))
        }
        4 => Some(Record::OnSet(SetRecord::Add(read_config(bytes, at)))),
        5 => Some(Record::Stops(at, (next - at) / 4)),
        6 => Some(Record::OnSet(SetRecord::Verdict)),
        7 => Some(Record::Show(ContextId(u32_at(bytes, at)))),
        8 => Some(Record::OnSet(SetRecord::Close)),
        9 => Some(Record::OnSet(SetRecord::Why)),
        _ => None,
    }
}

// Reads a record whose header, of 4 bytes, starts at `at`.
#[tactic(auto, using(crate::specs::Format::Laws::record_laws))]
fn read_record(bytes: &[u8], at: usize) -> Step
    requires { at + 4 ≤ length bytes.now }
    ensures { (reading bytes.now result ≡ record_at bytes.now at (u16_at bytes.now at) (u16_at bytes.now (at + 2)))
        × Placed bytes.now result }
{
    let length = u16_at(bytes, at);
    let kind = u16_at(bytes, at + 2);
    let start = at + 4;
    if bytes.len() - start < length as usize {
        return Step::Malformed;
    }
    if !payload_fits(kind, length) {
        return Step::Malformed;
    }
    let next = start + length as usize;
    match read_payload(bytes, kind, start, next) {
        Some(record) => Step::Found(record, next),
        None => Step::Malformed,
    }
}

// What stands at a place of a script.
#[tactic(auto, using(crate::specs::Format::Laws::place_laws))]
pub fn decode(bytes: &[u8], at: usize) -> Step
    ensures { (reading bytes.now result ≡ read_at bytes.now at) × Placed bytes.now result }
{
    if bytes.len() <= at {
        return Step::End;
    }
    if bytes.len() - at < 4 {
        return Step::Malformed;
    }
    read_record(bytes, at)
}
