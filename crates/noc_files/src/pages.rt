//! Texts that are put page by page.

ghost use Rattle.std.specs.Prelude.{◌≡◌, ◌<◌, ◌≤◌, ◌++◌, ℕ, List};
ghost use Rattle.noc_files.specs.Prelude.{flat_map, below, Puts, Wrote, taken};

use crate::page::{PAGE, Page};
use noc_bytes::{Sink, WriteFault, put_all};
use noc_packet::MAX_PACKETS;

// The most bytes of a text of pages.
pub(crate) const LONGEST_TEXT: u64 = MAX_PACKETS as u64 * PAGE as u64;

// A text of pages, no more of them than there may be packets.
pub(crate) trait Pages {
    // How many pages there are, and the text of each.
    ghost pages: { Self → ℕ };

    ghost text: { Self → ℕ → List ℕ };

    // How many pages there are.
    fn pages(&self) -> usize
        ensures value { result ≡ pages self.now }
        ensures few { result ≤ MAX_PACKETS };

    // Fills a page with its text.
    fn fill(&self, number: usize, page: &mut Page)
        requires { number < pages self.now }
        ensures { page.new ≡ text self.now number };
}

// Puts a text page by page, and says how many bytes it has.
pub(crate) fn put_pages<P: Pages, W: Sink>(
    pages: &P,
    page: &mut Page,
    sink: &mut W,
) -> Result<u64, WriteFault>
    ensures puts { Puts W.contents W.has_failed sink.old sink.new
        (flat_map (P.text pages.now) (below (P.pages pages.now))) result }
    ensures few { taken result ≤ LONGEST_TEXT }
{
    let mut written = 0;
    for number in 0..pages.pages() {
        pages.fill(number, page);
        let text = page.text();
        if let Err(fault) = put_all(sink, text) {
            return Err(fault.after(written));
        }
        written += text.len() as u64;
    }
    Ok(written)
}

// Writes a header, and below it a text of pages. It stays a call, so that its callers
// need no stack for a page.
#[inline(never)]
pub(crate) fn write_pages<P: Pages, W: Sink>(
    header: &str,
    pages: &P,
    sink: &mut W,
) -> Result<(), WriteFault>
    ensures { Wrote W.contents W.has_failed sink.old sink.new
        (header.now ++ flat_map (P.text pages.now) (below (P.pages pages.now))) result }
{
    put_all(sink, header.as_bytes())?;
    match put_pages(pages, &mut Page::new(), sink) {
        Ok(_) => Ok(()),
        Err(fault) => Err(fault.after(header.len() as u64)),
    }
}
