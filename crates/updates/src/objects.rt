// Another object: new, with a password more or less, or with another registration.
ghost use Rattle.std.specs.Prelude.{◌≡◌};
ghost use Rattle.state.specs.Lookup.{place_of};
ghost use Rattle.bounded.specs.Fill.{tabulate};
ghost use Rattle.state.specs.Update.{new_object, with_passwords, add_password, password_out, drop_password, with_registration};

use rights::Rights;
use state::objects::{free_object, free_password_place, free_registration, place_of};
use state::{Object, Password, Registration};

// A new object on an account, with one password in the owner's mode.
pub fn new_object(base: u8, pages: u8, word: u64, account: u8) -> Object
    ensures { result ≡ new_object base pages word account }
{
    let mut o = Object {
        base,
        pages,
        account,
        ..free_object()
    };
    o.passwords[0] = Password {
        word,
        mode: Rights::OWNER.bits,
    };
    o
}

// A password more, behind the last. With four nothing changes.
pub fn add_password(o: Object, word: u64, mode: u8) -> Object
    ensures { result ≡ add_password o word mode }
{
    let mut r = o;
    if let Some(at) = free_password_place(o) {
        r.passwords[at] = Password { word, mode };
    }
    r
}

// A password less; the younger ones close the gap. An absent word changes nothing.
fn without_password(o: Object, word: u64) -> Object
    ensures { result ≡ with_passwords o (tabulate 4 (password_out o (place_of o word))) }
{
    let mut r = o;
    if let Some(at) = place_of(o, word) {
        r.passwords.copy_within(at + 1..4, at);
        r.passwords[3] = Password::default();
    }
    r
}

// Drops a password, or the registration that has it. An absent password changes nothing.
pub fn drop_password(o: Object, word: u64) -> Object
    ensures { result ≡ drop_password o word }
{
    if word == 0 {
        return o;
    }
    let g = o.registration;
    if g.password == word {
        return with_registration(o, free_registration());
    }
    without_password(o, word)
}

// Another registration.
pub fn with_registration(o: Object, g: Registration) -> Object
    ensures { result ≡ with_registration o g }
{
    let mut r = o;
    r.registration = g;
    r
}
