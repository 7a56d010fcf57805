// The question Page: the next keys of the list, from the start or after a key.
ghost use Rattle.std.specs.Prelude.{◌≡◌, ◌∷◌, ◌<◌, ◌≤◌, length};
ghost use Rattle.ac.specs.Keys.{after, remaining};
ghost use Rattle.pair.specs.Ways.{mode_of};
ghost use Rattle.list.specs.List.{OfTheirList};
ghost use Rattle.solver.specs.Page.{wanted_count, beginning_of, told_page, PagePromise};
ghost use Rattle.solver.specs.Existence.{PageExistence};
ghost use Rattle.solver.specs.Steps.{SettledOf, KeysWritten, WeighedUpto, PageOfTable};

use list::rank::rank;
use list::{Key, find_key, least_listed};
use numbers::Refusal;
use pair::ways::Way;
use table::masks::Masks;
use table::{Table, solve};

// How many keys a page has if the request says 0.
pub const DEFAULT_COUNT: usize = 200;

// Where a page begins: at the start of the list, or after a key.
#[derive(Clone, Copy)]
pub enum Begin {
    Start,
    After(Key),
}

// A request is made of where to begin and how many keys are wanted.
#[derive(Clone, Copy)]
pub struct PageRequest {
    pub begin: Begin,
    pub wanted: usize,
}

// What is told of a page: the number of keys written, whether more follow and how many candidate keys were weighed.
#[derive(Clone, Copy)]
pub struct Written {
    pub written: usize,
    pub more: bool,
    pub weighed: u64,
}

// How many keys are wanted, where 0 means 200.
fn wanted_count(wanted: usize) -> usize
    ensures { result ≡ wanted_count wanted }
{
    if wanted == 0 { DEFAULT_COUNT } else { wanted }
}

// The first key of the page that begins there. At the start it is the least listed key, or 13. After a key it is 13 or 14
// if that is not listed, else the next one, unless it is the last: then it is 15.
fn settle(masks: &Masks, begin: Begin) -> Result<Key, Refusal>
    ensures { OfTheirList masks.now (λ listed. SettledOf listed (beginning_of begin) result) }
{
    match begin {
        Begin::Start => least_listed(masks, 0).ok_or(Refusal::NoUnifier),
        Begin::After(key) => {
            find_key(masks, key)?;
            least_listed(masks, key as u64 + 1).ok_or(Refusal::LastKey)
        }
    }
}

// The keys of a page: how many there are, whether more follow, and the last one.
#[derive(Clone, Copy)]
struct WrittenKeys {
    written: usize,
    more: bool,
    last: Key,
}

// Write the keys from the first one on, as many as are wanted or, if fewer remain, all that remain. Each is sought
// from the one before on, so that no key is weighed twice.
fn write_keys(masks: &Masks, first: Key, wanted: usize, out: &mut [Key]) -> WrittenKeys
    requires { (0 < wanted) × (wanted ≤ length out.old) }
    ensures { OfTheirList masks.now (λ listed. KeysWritten (first ∷ remaining (after first) listed) wanted out.old result out.new) }
{
    out[0] = first;
    let mut last = first;
    for written in 1..wanted {
        let Some(key) = least_listed(masks, last as u64 + 1) else {
            return WrittenKeys {
                written,
                more: false,
                last,
            };
        };
        out[written] = key;
        last = key;
    }
    let more = least_listed(masks, last as u64 + 1).is_some();
    WrittenKeys {
        written: wanted,
        more,
        last,
    }
}

// How many candidates lie after the beginning, up to and including the last key: the difference of two ranks. From the
// start on it is the rank of the last; where that does not come after the key, none lies between them.
fn weigh_up_to(masks: &Masks, begin: Begin, last: Key) -> u64
    ensures { WeighedUpto masks.now (beginning_of begin) last result }
{
    let upto = rank(&masks.sizes, masks.unbalanced, masks.must, last);
    match begin {
        Begin::Start => upto,
        Begin::After(key) => {
            let passed = rank(&masks.sizes, masks.unbalanced, masks.must, key);
            upto.saturating_sub(passed)
        }
    }
}

// The question Page on a solved pair: every refusal is settled before the first key is written. Which rows
// reach which variable is worked out once.
pub fn page_of(table: Table, request: PageRequest, out: &mut [Key]) -> Result<Written, Refusal>
    ensures { PageOfTable table request out.old (told_page result) out.new }
{
    let wanted = wanted_count(request.wanted);
    if out.len() < wanted {
        return Err(Refusal::ShortBuffer);
    }
    let masks = Masks::of(table);
    let first = settle(&masks, request.begin)?;
    let keys = write_keys(&masks, first, wanted, out);
    let weighed = weigh_up_to(&masks, request.begin, keys.last);
    Ok(Written {
        written: keys.written,
        more: keys.more,
        weighed,
    })
}

// The question Page by a way of listing: puts the next keys of the list of two sides into the buffer. 16 comes first,
// then what solving the pair refuses.
pub fn page(
    way: Way,
    left: &[u8],
    right: &[u8],
    request: PageRequest,
    out: &mut [Key],
) -> Result<Written, Refusal>
    ensures promise { PagePromise (mode_of way left.now right.now) left.now right.now
        (beginning_of request.begin) request.wanted out.old (told_page result) out.new }
    ensures existence { PageExistence (mode_of way left.now right.now) left.now right.now
        (beginning_of request.begin) request.wanted out.old (told_page result) out.new }
{
    if out.len() < wanted_count(request.wanted) {
        return Err(Refusal::ShortBuffer);
    }
    let table = solve(way, left, right)?;
    page_of(table, request, out)
}
