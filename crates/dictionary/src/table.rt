// A table of items, in the order of their names: each by its place behind a base.
//
// Names are ordered by their lengths, and those of one length by the first byte that differs: the order of their
// numbers. A name is found by halving. The contracts cite specs/Order.
ghost use Rattle.std.specs.Prelude.{◌≡◌, ◌+◌, ◌≤◌, ◌<◌, ◌^◌, length, take};
ghost use Rattle.dictionary.specs.Order as order;

// How a name stands to another.
#[derive(Clone, Copy)]
pub enum Order {
    Less,
    Same,
    More,
}

// Whether a name is in a table, or the index where it would stand.
#[derive(Clone, Copy)]
pub enum Spot {
    Held,
    Free(usize),
}

// How two names of one length stand to each other.
fn compare_bytes(a: &[u8], b: &[u8]) -> Order
    requires { length a.now ≡ length b.now }
    ensures { result ≡ order.order (order.key_of a.now) (order.key_of b.now) }
{
    for i in 0..a.len() {
        if a[i] < b[i] {
            return Order::Less;
        }
        if b[i] < a[i] {
            return Order::More;
        }
    }
    Order::Same
}

// How two names stand to each other.
fn compare(a: &[u8], b: &[u8]) -> Order
    ensures { result ≡ order.order (order.key_of a.now) (order.key_of b.now) }
{
    if a.len() < b.len() {
        return Order::Less;
    }
    if b.len() < a.len() {
        return Order::More;
    }
    compare_bytes(a, b)
}

// The name of the item at a place.
fn name_at(s: &[u8], at: usize) -> &[u8]
    requires { at + 5 < 2 ^ 64 }
    ensures { result.now ≡ order.name_from s.now at }
{
    let n = words::le::u32_at(s, at + 1);
    slices::part(s, at + 5, n as usize)
}

// Where the name of the item at a place stands among the first n of a table.
pub(crate) fn locate(s: &[u8], base: usize, t: &[u32], n: usize, at: usize) -> Spot
    requires n_in_bounds { n ≤ length t.now }
    requires base_in_bounds { base ≤ length s.now }
    requires at_in_bounds { at ≤ length s.now }
    requires rising { order.Rising (order.held s.now base n t.now) }
    ensures { order.Located (order.held s.now base n t.now)
        (order.key_at s.now at) result }
{
    let name = name_at(s, at);
    let mut low: usize = 0;
    // A `while`: what is halved is a stretch of the table, not a count.
    let mut high = n;
    while low < high {
        let middle = low + (high - low) / 2;
        match compare(name_at(s, base + (t[middle] as usize)), name) {
            Order::Less => low = middle + 1,
            Order::Same => return Spot::Held,
            Order::More => high = middle,
        }
    }
    Spot::Free(low)
}

// Puts a place at the index j of a table of n.
fn insert(t: &mut [u32], n: usize, j: usize, place: u32)
    requires n_in_bounds { n < length t.old }
    requires j_le_n { j ≤ n }
    ensures { take (n + 1) t.new ≡ order.inserted j place (take n t.old) }
{
    for i in (j..n).rev() {
        t[i + 1] = t[i];
    }
    t[j] = place;
}

// Whether the name of the item at a place behind the base is in a table of n; else it is put there.
pub(crate) fn add(s: &[u8], base: usize, t: &mut [u32], n: usize, place: u32) -> bool
    requires n_in_bounds { n < length t.old }
    requires place_in_bounds { base + place ≤ length s.now }
    requires rising { order.Rising (order.held s.now base n t.old) }
    ensures { order.Added (order.key_at s.now (base + place))
        (order.held s.now base n t.old)
        (order.held s.now base (n + 1) t.new) result }
{
    match locate(s, base, t, n, base + (place as usize)) {
        Spot::Held => return true,
        Spot::Free(j) => {
            insert(t, n, j, place);
            return false;
        }
    }
}
