// The outer header (document 01, "Header"): what it says, as figures, and its listing. The contracts cite crate
// outer_header's specs/Kdbx4Header with specs/Answers, and crate listing's specs/Listing. Refusals: of the header 1 to
// 11, 20 and 22, of the listing 17.
ghost use Rattle.std.specs.Prelude.{◌≡◌};
ghost use Rattle.refusals.specs.Numbers as numbers;
ghost use Rattle.outer_header.specs.Kdbx4Header as kdbx4;
ghost use Rattle.outer_header.specs.Answers as answers;
ghost use Rattle.listing.specs.Listing as listing;
ghost use Rattle.exports.specs.Lent as lent;

// What the header of a file says; the place of a refusal in `place`.
#[unsafe(no_mangle)]
pub extern "C" fn kdbx4_header(file: &[u8], figures: &mut [u64; 17], place: &mut usize) -> u8
    ensures value { result ≡ (answers.said (kdbx4.header file.now)).number }
    ensures place_after { place.new ≡ (answers.said (kdbx4.header file.now)).place }
    ensures figures_after { figures.new ≡ lent.values_or (answers.said (kdbx4.header file.now)) figures.old }
{
    let answer = outer_header::read(file);
    let number = refusals::number(answer);
    *place = refusals::place(answer);
    if number != 0 {
        return number;
    }
    *figures = outer_header::header_values(answer);
    number
}

// The text of the header listing over the front of `out`, and its length in `count`.
#[unsafe(no_mangle)]
pub extern "C" fn kdbx4_list(file: &[u8], out: &mut [u8], count: &mut usize) -> u8
    ensures value { result ≡ numbers.number_of (listing.answer (listing.text file.now) out.old) }
    ensures out_after { out.new ≡ listing.after (listing.text file.now) out.old }
    ensures count_after { count.new ≡ lent.count_or (listing.answer (listing.text file.now) out.old) count.old }
{
    let answer = listing::list(file, out);
    match answer {
        Ok(n) => {
            *count = n;
            return 0;
        }
        Err(r) => return r.number(),
    }
}
