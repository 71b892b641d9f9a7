// The objects of the object table as text.
#![tactic(auto)]

ghost use Rattle.std.specs.Prelude.{◌≡◌, ◌+◌, ◌≤◌, ◌++◌, length};
ghost use Rattle.listing.specs.Lines.{password_count, object_line, place_line, estate_lines, listing};

use state::{Estate, Object, Table};
use text::Text;

// How many bytes the header and 32 lines of five numbers have at most.
pub const LISTING: usize = 3393;

// How many ordinary passwords an object has: the word 0 is none.
fn password_count(o: &Object) -> u64
    ensures { result ≡ password_count o.now }
{
    o.passwords.iter().filter(|p| p.word != 0).count() as u64
}

// Puts the line of an object.
fn put_object(text: &mut Text<LISTING>, o: &Object)
    requires { length text.old + 105 ≤ 3393 }
    ensures { (text.new ≡ text.old ++ object_line o.now) × (length text.new ≤ length text.old + 105) }
{
    let fields = [
        o.account as u64,
        password_count(o),
        u64::from(o.registration.password != 0),
    ];
    text.put_line(o.base as u64, o.pages as u64, &fields);
}

// The same of a place, where an object stands there.
fn put_place(text: &mut Text<LISTING>, o: &Object)
    requires { length text.old + 105 ≤ 3393 }
    ensures { (text.new ≡ text.old ++ place_line o.now) × (length text.new ≤ length text.old + 105) }
{
    if o.pages != 0 {
        put_object(text, o);
    }
}

// The places of an estate, 0 to 7.
fn put_estate(text: &mut Text<LISTING>, e: &Estate)
    requires { length text.old + 840 ≤ 3393 }
    ensures { (text.new ≡ text.old ++ estate_lines e.now) × (length text.new ≤ length text.old + 840) }
{
    for o in &e.objects {
        put_place(text, o);
    }
}

// The header, and a line for each object: base, page count, account, number of ordinary passwords, and 1 or 0 for a registration.
pub fn listing_text(t: Table) -> Text<LISTING>
    ensures { result ≡ listing t }
{
    let mut text = Text::new();
    text.put_bytes(b"base,pages,account,passwords,pdx\n");
    for e in &t.estates {
        put_estate(&mut text, e);
    }
    text
}
