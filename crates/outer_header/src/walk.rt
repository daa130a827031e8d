// The fields of an outer header, in file order, up to the end field.
ghost use Rattle.std.specs.Prelude.{◌≡◌, length};
ghost use Rattle.outer_header.specs.Kdbx4Header as kdbx4;

use fields::{Place, SizeRule};
use refusals::Refusal;

// The places of the fields' values. An absent field has the start 0, where no value stands.
#[derive(Clone, Copy)]
pub struct Fields {
    pub cipher: Place,
    pub compression: Place,
    pub seed: Place,
    pub nonce: Place,
    pub kdf: Place,
    pub custom: Place,
}

// Whether an ID is in the table of fields.
fn is_listed(id: u8) -> bool
    ensures { result ≡ kdbx4.listed id }
{
    if id == 0 {
        return true;
    }
    if id == 2 {
        return true;
    }
    if id == 3 {
        return true;
    }
    if id == 4 {
        return true;
    }
    if id == 7 {
        return true;
    }
    if id == 11 {
        return true;
    }
    id == 12
}

// How many bytes a field's value has. A nonce's size is judged with its cipher, after the end field.
fn size_rule(id: u8) -> SizeRule
    ensures { result ≡ kdbx4.size_rule id }
{
    if id == 0 {
        return SizeRule::Exactly(4);
    }
    if id == 2 {
        return SizeRule::Exactly(16);
    }
    if id == 3 {
        return SizeRule::Exactly(4);
    }
    if id == 4 {
        return SizeRule::Exactly(32);
    }
    SizeRule::Any
}

impl Fields {
    // No field yet.
    fn none() -> Self
        ensures { result ≡ kdbx4.no_fields }
    {
        let p = Place {
            start: 0,
            length: 0,
        };
        Fields {
            cipher: p,
            compression: p,
            seed: p,
            nonce: p,
            kdf: p,
            custom: p,
        }
    }

    // Whether a field of the ID came before.
    fn has(self, id: u8) -> bool
        ensures { result ≡ kdbx4.seen self id }
    {
        if id == 2 {
            return self.cipher.start != 0;
        }
        if id == 3 {
            return self.compression.start != 0;
        }
        if id == 4 {
            return self.seed.start != 0;
        }
        if id == 7 {
            return self.nonce.start != 0;
        }
        if id == 11 {
            return self.kdf.start != 0;
        }
        if id == 12 {
            return self.custom.start != 0;
        }
        false
    }
}

// The fields with one more.
fn put(f: Fields, id: u8, p: Place) -> Fields
    ensures { result ≡ kdbx4.put f id p }
{
    let mut g = f;
    if id == 2 {
        g.cipher = p;
        return g;
    }
    if id == 3 {
        g.compression = p;
        return g;
    }
    if id == 4 {
        g.seed = p;
        return g;
    }
    if id == 7 {
        g.nonce = p;
        return g;
    }
    if id == 11 {
        g.kdf = p;
        return g;
    }
    if id == 12 {
        g.custom = p;
        return g;
    }
    g
}

// The field at a place, where the fields before it are known.
fn field_here(f: Fields, s: &[u8], at: usize) -> Result<(u8, Place), Refusal>
    ensures { result ≡ kdbx4.field_here f s.now at }
{
    let id = words::byte_at(s, at);
    let listed = is_listed(id);
    let repeated = f.has(id);
    let rule = size_rule(id);
    fields::field_at(s, at, listed, repeated, rule)
}

// Whether the end field's value is right.
fn ends_right(s: &[u8], p: Place) -> bool
    ensures { result ≡ kdbx4.ends_right s.now p }
{
    slices::same(slices::part(s, p.start, p.length), b"\x0D\x0A\x0D\x0A")
}

// All fields of a header up to the end field, and where the header ends.
pub(crate) fn walk(s: &[u8]) -> Result<(Fields, usize), Refusal>
    ensures { result ≡ kdbx4.walk (length s.now) kdbx4.no_fields s.now 12 }
{
    let mut f = Fields::none();
    let mut at: usize = 12;
    for _ in 0..s.len() {
        let (id, p) = field_here(f, s, at)?;
        at = p.start + p.length;
        if id == 0 {
            if ends_right(s, p) {
                return Ok((f, at));
            }
            return Err(Refusal::WrongSize(fields::begin(p)));
        }
        f = put(f, id, p);
    }
    Err(Refusal::CutShort(s.len()))
}
