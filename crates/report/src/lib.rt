// The line that the judge program writes for a verdict.
#![tactic(auto)]

ghost use Rattle.std.specs.Prelude.{◌≡◌, ◌≤◌};
ghost use Rattle.number.specs.Wrote.{Wrote};
ghost use Rattle.text.specs.Pages.{with_text};
ghost use Rattle.report.specs.Line.{line_room, line_of};

use text::Page;
use verdict::Verdict;

// So many bytes have room for every line.
pub const LINE_ROOM: usize = 64;

// The line of a verdict, on a page.
#[tactic(auto, using(text::specs::laws::Paging::page_steps), unfolding(crate::specs::Line::line_of))]
fn put_line(page: &mut Page, v: Verdict)
    ensures { page.new ≡ with_text page.old (line_of v) }
{
    match v {
        Verdict::Lawful => page.words(b"lawful"),
        Verdict::Unlawful(cell) => page.field(b"unlawful cell ", cell.0 as usize),
        Verdict::Refused(number, entry) => {
            page.field(b"refused ", number as usize);
            page.field(b" at entry ", entry);
        }
    }
    page.words(b"\n");
}

// The line of a verdict at the front of `out`, and how many bytes it has. No line has more than 59.
#[tactic(auto, using(crate::proofs::Laws::line_few), unfolding(text::specs::Pages::with_text))]
pub fn report(v: Verdict, out: &mut [u8; LINE_ROOM]) -> usize
    ensures { Wrote out.old 0 (line_of v) result out.new × (result ≤ line_room) }
{
    let mut page = Page {
        bytes: out,
        place: 0,
    };
    put_line(&mut page, v);
    page.place
}
