// The calls on the slots and locks of the caller's protection domain: IN, RM, GT and LO. Each hands back that domain as it is then, or why it is
// refused; GT is never refused.
#![tactic(auto)]

ghost use Rattle.std.specs.Prelude.{◌≡◌, not, ◌&&◌, List, ℕ, ◌<◌, leb, get_or, length};
ghost use Rattle.state.specs.Update.{with_active};
ghost use Rattle.state.specs.declared.Table.{Table as Objects};
ghost use Rattle.calls.specs.Changes.{frame_fields};
ghost use Rattle.calls.specs.Parts.{Moves};
ghost use Rattle.calls.specs.declared.DomainCall.TheVariants.{Insert, Remove, Get, Lock};

use calls::replies::moved;
use calls::{Fields, Moved, Presented, Refusal};
use clists::live;
use state::{Capability, Domain, Frame, Table};
use std::array;
use updates::frames::{insert_slot, lock_slot, remove_slot};

// A domain with another active frame.
fn with_active(m: Domain, f: Frame) -> Domain
    ensures { result ≡ with_active m f }
{
    Domain { active: f, ..m }
}

// Whether the slots from a place on may change.
fn unlocked_at(f: Frame, slot: u64) -> bool
    ensures { result ≡ (leb f.locked slot && not f.whole) }
{
    (u64::from(f.locked) <= slot) & !f.whole
}

// IN: puts a Clist capability in at a slot.
pub fn apd_insert(t: Table, m: Domain, slot: u64, list: Presented) -> Result<Moved, Refusal>
    ensures { (words : List ℕ) → length words ≡ 8192 → Moves t m words (Insert slot list) result }
{
    if 8 <= slot {
        return Err(Refusal::OutOfRange);
    }
    if 128 <= list.page {
        return Err(Refusal::OutOfRange);
    }
    let f = m.active;
    if !unlocked_at(f, slot) {
        return Err(Refusal::Locked);
    }
    let c = Capability {
        page: list.page as u8,
        password: list.password,
    };
    if !live(t, c) {
        return Err(Refusal::NotGranted);
    }
    if 8 <= f.count {
        return Err(Refusal::Full);
    }
    if u64::from(f.count) < slot {
        return Err(Refusal::Missing);
    }
    Ok(moved(with_active(m, insert_slot(f, slot as u8, c)), 0))
}

// RM: takes a slot out.
pub fn apd_delete(m: Domain, slot: u64) -> Result<Moved, Refusal>
    ensures { (t : Objects) (words : List ℕ) → length words ≡ 8192 → Moves t m words (Remove slot) result }
{
    if 8 <= slot {
        return Err(Refusal::OutOfRange);
    }
    let f = m.active;
    if !unlocked_at(f, slot) {
        return Err(Refusal::Locked);
    }
    if u64::from(f.count) <= slot {
        return Err(Refusal::Missing);
    }
    Ok(moved(with_active(m, remove_slot(f, slot as u8)), 0))
}

// Field i of a done Get: how many slots, how many of them locked, the whole lock, then the page of each slot.
#[tactic(auto, unfolding(calls::specs::Changes::frame_fields))]
fn field_at(f: Frame, i: usize) -> u64
    requires { i < 11 }
    ensures { result ≡ get_or (frame_fields f).values i 0 }
{
    match i {
        0 => u64::from(f.count),
        1 => u64::from(f.locked),
        2 => u64::from(f.whole),
        _ if i < 3 + usize::from(f.count) => u64::from(f.slots[i - 3].page),
        _ => 0,
    }
}

// What a done Get reports of a frame.
fn frame_fields(f: Frame) -> Fields
    ensures { result ≡ frame_fields f }
{
    Fields {
        count: 3 + u64::from(f.count),
        values: array::from_fn(|i| field_at(f, i)),
    }
}

// GT: the slots and the locks.
pub fn apd_get(m: Domain) -> Moved
    ensures { (t : Objects) (words : List ℕ) → length words ≡ 8192 → Moves t m words Get (Ok result) }
{
    let f = m.active;
    Moved {
        value: 0,
        fields: frame_fields(f),
        domain: m,
    }
}

// LO: locks a slot and all before it, or with 255 the whole domain.
pub fn apd_lock(m: Domain, slot: u64) -> Result<Moved, Refusal>
    ensures { (t : Objects) (words : List ℕ) → length words ≡ 8192 → Moves t m words (Lock slot) result }
{
    let f = m.active;
    if slot == 255 {
        return Ok(moved(with_active(m, lock_slot(f, 255)), 0));
    }
    if 8 <= slot {
        return Err(Refusal::OutOfRange);
    }
    if u64::from(f.count) <= slot {
        return Err(Refusal::Missing);
    }
    Ok(moved(with_active(m, lock_slot(f, slot as u8)), 0))
}
