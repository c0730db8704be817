// The index by which children are found: two numbers to each of the first records, its last child among them and the child of its parent before it; 0 for
// none, since optional numbers would take twice the fixed room. Children past it are searched for.
ghost use Rattle.std.specs.Prelude.{◌≡◌, ◌*◌, ◌<◌, length};
ghost use Rattle.search.specs.inner.Links.{linked, older_at, last_link, top_of, link_of};

use std::cmp;

// As many records as the index has room for: those of a search that stores few whole paths.
const LINKED: usize = 16384;

// The numbers of the index.
pub const LINKS: usize = 2 * LINKED;

// The lesser of count and room.
pub fn top_of(count: usize) -> usize
    ensures { result ≡ top_of count }
{
    cmp::min(count, LINKED)
}

// A record past the index has no child before it.
pub fn last_child(links: &[u32], k: usize) -> usize
    requires { length links.now ≡ 2 * linked }
    ensures { result ≡ last_link links.now k }
{
    if k < LINKED {
        return links[2 * k] as usize;
    }
    0
}

pub fn older(links: &[u32], k: usize) -> usize
    requires { (length links.now ≡ 2 * linked) × (k < linked) }
    ensures { result ≡ older_at links.now k }
{
    links[2 * k + 1] as usize
}

// Record k is a new child of a record before it.
pub fn link(links: &mut [u32], parent: usize, k: usize)
    requires { (length links.old ≡ 2 * linked) × (parent < k) }
    ensures { links.new ≡ link_of links.old parent k }
{
    if k < LINKED {
        links[2 * k + 1] = links[2 * parent];
        links[2 * parent] = k as u32;
    }
}
