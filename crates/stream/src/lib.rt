// The call program's work on the pieces of its input.
#![tactic(auto)]

ghost use Rattle.std.specs.Prelude.{◌≡◌, true, ◌≤◌, length, take};
ghost use mathlib.Core.List.{foldl};
ghost use Rattle.calls.specs.Step.{unchecked};
ghost use Rattle.stream.specs.Run.{next_number, header};
ghost use Rattle.stream.specs.Feed.{start_feed, progress_of, finished_text, finished_end, room_for, stopped, held_bytes, on_held};

use apply::domain_call;
use calls::BOOT_NUMBERS;
use held::Held;
use lines::{LINE_BYTES, find};
use replies::Kind;
use replies::boots::boot_line;
use replies::kinds::{access_line, kind_of, object_line};
use state::{Accounts, Domain, State, Table};
use text::{put_answer, put_line};
use updates::estates::empty_state;

mod held;

// So many bytes of a line are held: one more than the longest has, enough to tell that it is too long.
pub const HELD_BYTES: usize = LINE_BYTES + 1;

// Where the program stands between two bytes of its input.
#[derive(Clone, Copy)]
pub struct Feed {
    pub state: State,
    // The number of the line that is read.
    pub number: u64,
    // The first bytes of that line, of which `held` stand.
    // Two fields and no `Held`: `feed_piece` and `progress_of` take every feed, also one with more held than fits.
    pub line: [u8; HELD_BYTES],
    pub held: usize,
    // Where the text in the output buffer ends: the buffer is lent, so its length stands here.
    pub at: usize,
    // How many bytes of the piece were taken.
    pub taken: usize,
}

fn next_number(n: u64) -> u64
    ensures { result ≡ next_number n }
{
    n.saturating_add(1)
}

// The header line.
pub fn header() -> [u8; 18]
    ensures { result ≡ header }
{
    *b"line,answer,value\n"
}

// Where the program stands at first: no objects, line 1.
pub fn start() -> Feed
    ensures { result ≡ start_feed }
{
    Feed {
        state: empty_state(),
        number: 1,
        line: [0; HELD_BYTES],
        held: 0,
        at: 0,
        taken: 0,
    }
}

// A last line without its line feed, answered by 1 into an empty buffer. Answers where the text ends.
pub fn finish(f: Feed, out: &mut [u8]) -> usize
    ensures { (out.new ≡ finished_text f out.old) × (result ≡ finished_end f out.old) × (result ≤ length out.old) }
{
    if f.held == 0 {
        return 0;
    }
    put_line(out, 0, f.number, 1, &[0])
}

// Whether the longest answer fits.
fn has_room(length: usize, at: usize) -> bool
    ensures { result ≡ room_for length at }
{
    length >= 273 && at <= length - 273
}

// The state with these parts.
fn state_of(table: Table, domains: [Domain; 4], accounts: Accounts) -> State
    ensures { result ≡ record { table = table; domains = domains; accounts = accounts } }
{
    State {
        table,
        domains,
        accounts,
    }
}

// Takes bytes of a piece, answers the lines that end there into `out`, and stops where the longest answer has no room.
pub fn feed_piece(f: Feed, store: &mut [u64], piece: &[u8], out: &mut [u8]) -> Feed
    ensures out_after { progress_of result store.new out.new ≡ foldl (on_held unchecked) (progress_of f store.old out.old) (take result.taken piece.now) }
    ensures taken_in_bounds { (result.taken ≤ length piece.now) × (stopped (length piece.now) (length out.old) result.taken result.at ≡ true) × (result.at ≤ length out.old) × (result.held ≤ held_bytes) }
{
    let s = f.state;
    let mut table = s.table;
    let mut domains = s.domains;
    let mut accounts = s.accounts;
    let mut number = f.number;
    let mut held = Held::first(f.line, f.held);
    let mut at = f.at.min(out.len());
    let mut from = 0;
    let mut plan = [0; BOOT_NUMBERS];
    // No `for`: a turn takes a whole line, or what is left of the piece.
    while (from < piece.len()) & has_room(out.len(), at) {
        let end = find(piece, from, 10);
        if end == piece.len() {
            held.hold(&piece[from..end]);
            from = end;
            continue;
        }
        let reading = held.read(&piece[from..end], &mut plan);
        let n = number;
        number = next_number(n);
        held.clear();
        from = end + 1;
        let kind = kind_of(store.len(), reading);
        match kind {
            Kind::Known(a) => {
                at = put_line(out, at, n, a, &[0]);
                continue;
            }
            Kind::Access(who, c) => {
                let m = domains[who];
                at = access_line(table, store, m.active, c, n, out, at);
                continue;
            }
            Kind::Object(who, c) => {
                let m = domains[who];
                let r = object_line(table, accounts, store, who, m.active, c, n, out, at);
                at = r.at;
                if let Ok(new) = r.altered {
                    table.estates[new.place] = new.estate;
                }
                continue;
            }
            Kind::Domain(who, c) => {
                match domain_call(table, store, domains[who], c) {
                    Ok(new) => {
                        domains[who] = new.domain;
                        at = put_answer(out, at, n, Ok(new.value), new.fields);
                    }
                    Err(why) => at = put_line(out, at, n, u64::from(why), &[0]),
                }
                continue;
            }
            Kind::Boot(who) => {
                let old = state_of(table, domains, accounts);
                let r = boot_line(old, store, who, plan, n, out, at);
                let new = r.state;
                table = new.table;
                domains = new.domains;
                accounts = new.accounts;
                at = r.at;
                continue;
            }
        }
    }
    Feed {
        state: state_of(table, domains, accounts),
        number,
        line: held.bytes,
        held: held.count,
        at,
        taken: from,
    }
}
