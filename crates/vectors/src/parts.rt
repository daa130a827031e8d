// A message in parts whose lengths change: the first of a given length, of one byte at least, the next twice as long and
// one more, or of one byte again where that would pass a bound; the last is what is left.
ghost use Rattle.std.specs.Prelude.{◌<◌, length};
ghost use Rattle.std.specs.Iterator.{at_most};

// The length of the part after one of `size` bytes: twice as many and one more, or 1 again where `size` is `longest` or
// above.
fn next_size(size: usize, longest: u8) -> usize
    ensures { 0 < result }
{
    if size < usize::from(longest) {
        2 * size + 1
    } else {
        1
    }
}

// The parts that are left of a message.
#[derive(Drop)]
pub struct Parts<'a> {
    rest: &'a [u8],
    size: usize,
    longest: u8,
    ghost not_empty: { 0 < size },
}

impl<'a> Parts<'a> {
    pub fn of(message: &'a [u8], first: usize, longest: u8) -> Parts<'a> {
        Parts {
            rest: message,
            size: first.max(1),
            longest,
        }
    }
}

impl<'a> Iterator for Parts<'a> {
    type Item = &'a [u8];

    ghost remaining = { λ parts. at_most (length parts.rest.now) };

    fn next(&mut self) -> Option<&'a [u8]> {
        if self.rest.is_empty() {
            return None;
        }
        let (part, rest) = self.rest.split_at(self.size.min(self.rest.len()));
        self.rest = rest;
        self.size = next_size(self.size, self.longest);
        Some(part)
    }
}

// The parts that are left of a message that is changed.
#[derive(Drop)]
pub struct PartsMut<'a> {
    rest: &'a mut [u8],
    size: usize,
    longest: u8,
    ghost not_empty: { 0 < size },
}

impl<'a> PartsMut<'a> {
    pub fn of(message: &'a mut [u8], first: usize, longest: u8) -> PartsMut<'a> {
        PartsMut {
            rest: message,
            size: first.max(1),
            longest,
        }
    }
}

impl<'a> Iterator for PartsMut<'a> {
    type Item = &'a mut [u8];

    ghost remaining = { λ parts. at_most (length parts.rest.now) };

    fn next(&mut self) -> Option<&'a mut [u8]> {
        if self.rest.is_empty() {
            return None;
        }
        let size = self.size.min(self.rest.len());
        self.size = next_size(self.size, self.longest);
        self.rest.split_off_mut(..size)
    }
}
