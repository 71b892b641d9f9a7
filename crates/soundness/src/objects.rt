// Whether the objects of an estate keep their bounds.
ghost use Rattle.std.specs.Prelude.{◌≡◌, cond, ◌&&◌, ◌||◌, ◌/◌, leb, ltb, eqb};
ghost use Rattle.bounded.specs.Every.{below};
ghost use Rattle.bounded.specs.Fill.{tabulate};
ghost use Rattle.rights.specs.Modes.{legal};
ghost use Rattle.state.specs.Places.{password_at, object_at};
ghost use Rattle.state.specs.Extent.{free, covers, lies_in};
ghost use Rattle.soundness.specs.Sound.{blank, absent, distinct, all_passwords, password_ok, password_next, passwords_ok, entry_ok, registration_ok, without_passwords, object_ok, follows, ordered_at, estate_ok};

use crate::modes::ModeTable;
use state::extents::{covers, lies_in};
use state::{Estate, Object, Password, Registration};

// Whether a password is all zero or has a legal mode.
fn password_ok(modes: &ModeTable, p: Password) -> bool
    ensures { result ≡ cond (eqb p.word 0) (eqb p.mode 0) (legal p.mode) }
{
    if p.word == 0 {
        return p.mode == 0;
    }
    modes.legal(p.mode)
}

// Whether a number is none of the others.
fn absent(w: u64, others: &[u64]) -> bool
    ensures { result ≡ absent w others.now }
{
    others.iter().all(|x| *x != w)
}

// Whether a number is 0 or none of the others.
fn single(w: u64, others: &[u64]) -> bool
    ensures { result ≡ (eqb w 0 || absent w others.now) }
{
    w == 0 || absent(w, others)
}

// Whether no nonzero number stands twice among the words.
fn all_distinct(words: &[u64]) -> bool
    ensures { result ≡ distinct words.now }
{
    let mut rest = words;
    while let Some((w, others)) = rest.split_first() {
        if !single(*w, others) {
            return false;
        }
        rest = others;
    }
    true
}

// The object's ordinary passwords, 0 for a free place.
fn words(o: Object) -> [u64; 4]
    ensures { result ≡ tabulate 4 (λ k. (password_at o k).word) }
{
    o.passwords.map(|p| p.word)
}

// Whether no password of the object stands behind a free place, and none, the registration's included, stands twice.
fn passwords_placed(o: Object) -> bool
    ensures { result ≡ (below 3 (password_next o) && distinct (all_passwords o)) }
{
    let words = words(o);
    words.is_sorted_by(|a, b| *a != 0 || *b == 0)
        && single(o.registration.password, &words)
        && all_distinct(&words)
}

// Whether an entry past the count is 0, and one in use inside the object.
fn entry_ok(o: Object, unused: bool, entry: u16) -> bool
    ensures { result ≡ cond unused (eqb entry 0) (covers o (entry / 64)) }
{
    if unused {
        return entry == 0;
    }
    covers(o, entry as u64 / 64)
}

// Whether the list and the count of no registration are zero, and those of a registration in bounds.
#[tactic(auto, unfolding(crate::specs::Sound::blank))]
fn list_ok(g: Registration) -> bool
    ensures { result ≡ cond (eqb g.password 0) (blank g.list && eqb g.count 0) (ltb g.list.page 128 && ltb 0 g.count && leb g.count 4) }
{
    let list = g.list;
    if g.password == 0 {
        return list.page == 0 && list.password == 0 && g.count == 0;
    }
    list.page < 128 && 0 < g.count && g.count <= 4
}

// Whether each entry past the count is 0, and each in use inside the object.
fn entries_ok(o: Object) -> bool
    ensures { result ≡ below 4 (entry_ok o) }
{
    let g = o.registration;
    let n = g.count as usize;
    g.entries
        .iter()
        .enumerate()
        .all(|(k, entry)| entry_ok(o, n <= k, *entry))
}

// Whether a registration is all zero, or keeps its bounds.
fn registration_ok(o: Object) -> bool
    ensures { result ≡ registration_ok o }
{
    entries_ok(o) && list_ok(o.registration)
}

// Whether the object has no password, and no registration.
fn without_passwords(o: Object) -> bool
    ensures { result ≡ without_passwords o }
{
    o.registration.password == 0 && o.passwords.iter().all(|p| p.word == 0)
}

// Whether a place without pages is zero beside its modes and entries, or the object lies in the estate of domain d, on an account.
fn place_ok(o: Object, d: u8) -> bool
    ensures { result ≡ cond (free o) (eqb o.base 0 && without_passwords o && eqb o.account 0) (lies_in o d && ltb o.account 4) }
{
    if o.pages == 0 {
        return o.base == 0 && without_passwords(o) && o.account == 0;
    }
    lies_in(o, d) && o.account < 4
}

// Whether each ordinary password has a legal mode, and each free place none.
fn modes_ok(modes: &ModeTable, o: Object) -> bool
    ensures { result ≡ below 4 (password_ok o) }
{
    o.passwords.iter().all(|p| password_ok(modes, *p))
}

// Whether the ordinary passwords have legal modes, and stand as they should.
fn passwords_ok(modes: &ModeTable, o: Object) -> bool
    ensures { result ≡ passwords_ok o }
{
    modes_ok(modes, o) && passwords_placed(o)
}

// Whether an object is all zero, or keeps its bounds.
fn object_ok(modes: &ModeTable, o: Object, d: u8) -> bool
    ensures { result ≡ object_ok o d }
{
    passwords_ok(modes, o) && registration_ok(o) && place_ok(o, d)
}

// Whether b is free, or a stands and ends before b's base.
#[tactic(auto, unfolding(crate::specs::Sound::follows))]
fn follows(a: Object, b: Object) -> bool
    ensures { result ≡ follows a b }
{
    b.pages == 0 || (a.pages != 0 && a.base as u64 + a.pages as u64 <= b.base as u64)
}

// Whether the objects of the estate stand in the first places, by rising base, and apart.
fn in_order(e: Estate) -> bool
    ensures { result ≡ below 7 (ordered_at e) }
{
    e.objects.is_sorted_by(|a, b| follows(*a, *b))
}

// Whether each object of the estate keeps its bounds.
fn objects_ok(modes: &ModeTable, e: Estate, d: u8) -> bool
    ensures { result ≡ below 8 (λ k. object_ok (object_at e k) d) }
{
    e.objects.iter().all(|o| object_ok(modes, *o, d))
}

// Whether the estate of domain d keeps its bounds.
pub fn estate_ok(modes: &ModeTable, e: Estate, d: u8) -> bool
    ensures { result ≡ estate_ok e d }
{
    objects_ok(modes, e, d) && in_order(e)
}
