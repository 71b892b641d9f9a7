// The figures of the accounts as text.
#![tactic(auto)]

ghost use Rattle.std.specs.Prelude.{◌≡◌, ◌+◌, ◌≤◌, ◌++◌, length};
ghost use Rattle.figures.specs.Lines.{figure_line, figure_lines};

use pages::pages_of;
use state::Table;
use text::Text;

// How many bytes the lines of the accounts have at most.
pub const FIGURES: usize = 168;

// Puts the line of an account.
fn put_figure(text: &mut Text<FIGURES>, t: Table, a: u64)
    requires { length text.old + 42 ≤ 168 }
    ensures { (text.new ≡ text.old ++ figure_line t a) × (length text.new ≤ length text.old + 42) }
{
    text.put_line(a, pages_of(t, a) as u64, &[]);
}

// A line for each account from 0 to 3: the account, a comma, its pages and a line feed.
pub fn figure_text(t: Table) -> Text<FIGURES>
    ensures { result ≡ figure_lines t }
{
    let mut text = Text::new();
    for a in 0..4 {
        put_figure(&mut text, t, a);
    }
    text
}
