// Variant dictionaries (document 01, "Header"): checking one, and finding a name in it. The contracts cite crate
// dictionary's specs/Dictionary with specs/Answers. Refusals: 10 and 6.
ghost use Rattle.std.specs.Prelude.{◌≡◌};
ghost use Rattle.dictionary.specs.Dictionary as kdbx4;
ghost use Rattle.dictionary.specs.Answers as answers;
ghost use Rattle.exports.specs.Lent as lent;

// Whether a dictionary is sound; the place of a refusal in `place`.
#[unsafe(no_mangle)]
pub extern "C" fn kdbx4_dictionary_check(dictionary: &[u8], place: &mut usize) -> u8
    ensures value { result ≡ (answers.said_verdict (kdbx4.verdict dictionary.now)).number }
    ensures place_after { place.new ≡ (answers.said_verdict (kdbx4.verdict dictionary.now)).place }
{
    let answer = dictionary::check(dictionary);
    *place = dictionary::verdict_place(answer);
    dictionary::verdict_number(answer)
}

// What a name is found as: 1, the type, the value's start and length; zeros where a sound dictionary has no such name.
// The place of a refusal is left in `place`.
#[unsafe(no_mangle)]
pub extern "C" fn kdbx4_dictionary_find(
    dictionary: &[u8],
    name: &[u8],
    found: &mut [u64; 4],
    place: &mut usize,
) -> u8
    ensures value { result ≡ (answers.said_found (kdbx4.find dictionary.now name.now)).number }
    ensures place_after { place.new ≡ (answers.said_found (kdbx4.find dictionary.now name.now)).place }
    ensures found_after { found.new ≡ lent.values_or (answers.said_found (kdbx4.find dictionary.now name.now)) found.old }
{
    let answer = dictionary::find(dictionary, name);
    let number = refusals::number(answer);
    *place = refusals::place(answer);
    if number != 0 {
        return number;
    }
    *found = dictionary::found_values(answer);
    number
}
