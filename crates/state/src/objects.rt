// One object: its passwords and its registration, looked up, and what a free place holds.
ghost use Rattle.std.specs.Prelude.{◌≡◌};
ghost use Rattle.state.specs.Places.{free_registration, free_object};
ghost use Rattle.state.specs.Lookup.{has_base, found, place_of, free_password_place, ordinary_mode, mode_of, has_password};

use crate::{Capability, Object, Password, Registration};
use rights::Rights;

// Whether the object stands and has the base.
pub fn has_base(o: Object, page: u64) -> bool
    ensures { result ≡ has_base page o }
{
    (o.pages != 0) & (o.base as u64 == page)
}

// The place of a word among the ordinary passwords, none where it is none of them.
pub fn place_of(o: Object, word: u64) -> Option<usize>
    ensures { result ≡ found 4 (place_of o word) }
{
    o.passwords.iter().position(|p| p.word == word)
}

// The first free place for a password, none where all are taken.
pub fn free_password_place(o: Object) -> Option<usize>
    ensures { result ≡ found 4 (free_password_place o) }
{
    place_of(o, 0)
}

// The mode that a password has as an ordinary one of the object, 0 where it is none. No Option: the definition that the promise names gives
// that mode, which neither grants nor denies.
pub fn ordinary_mode(o: Object, word: u64) -> u8
    ensures { result ≡ ordinary_mode o word }
{
    if word == 0 {
        return 0;
    }
    for p in o.passwords {
        if p.word == word {
            return p.mode;
        }
    }
    0
}

// The mode that a password has for the object, the registration's included; 0, and no Option, where it has none, as in the definition.
pub fn mode_of(o: Object, word: u64) -> u8
    ensures { result ≡ mode_of o word }
{
    let g = o.registration;
    if (word != 0) & (g.password == word) {
        return Rights::PDX.bits;
    }
    ordinary_mode(o, word)
}

// Whether the object has the password, the registration's included.
pub fn has_password(o: Object, word: u64) -> bool
    ensures { result ≡ has_password o word }
{
    (word != 0) & ((o.registration.password == word) | place_of(o, word).is_some())
}

// No registration.
pub fn free_registration() -> Registration
    ensures { result ≡ free_registration }
{
    Registration::default()
}

// No object.
pub fn free_object() -> Object
    ensures { result ≡ free_object }
{
    Object::default()
}
