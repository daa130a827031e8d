// The inner header of a payload (document 01, "Inner header"): what it says and its attachments, as figures, and its
// writing. The contracts cite crate inner_header's specs/InnerHeader with specs/Answers, and specs/Writer. Refusals: of
// reading 1, 2, 5 to 9; of writing 9, of the run 2, 7 and 5, 1, 17.
ghost use Rattle.std.specs.Prelude.{◌≡◌, length};
ghost use Rattle.refusals.specs.Numbers as numbers;
ghost use Rattle.slices.specs.Over.{over};
ghost use Rattle.inner_header.specs.InnerHeader as kdbx4;
ghost use Rattle.inner_header.specs.Answers as answers;
ghost use Rattle.inner_header.specs.Writer as writer;
ghost use Rattle.exports.specs.Lent as lent;

// What the inner header of a payload says; the place of a refusal in `place`.
#[unsafe(no_mangle)]
pub extern "C" fn kdbx4_inner(payload: &[u8], figures: &mut [u64; 5], place: &mut usize) -> u8
    ensures value { result ≡ (answers.said_read (kdbx4.inner payload.now)).number }
    ensures place_after { place.new ≡ (answers.said_read (kdbx4.inner payload.now)).place }
    ensures figures_after { figures.new ≡ lent.values_or (answers.said_read (kdbx4.inner payload.now)) figures.old }
{
    let answer = inner_header::read_header(payload);
    let number = refusals::number(answer);
    *place = refusals::place(answer);
    if number != 0 {
        return number;
    }
    *figures = inner_header::header_values(answer);
    number
}

// The flags of an attachment, counted from 0, and the place of its content; the place of a refusal in `place`.
#[unsafe(no_mangle)]
pub extern "C" fn kdbx4_attachment(
    payload: &[u8],
    index: usize,
    figures: &mut [u64; 3],
    place: &mut usize,
) -> u8
    ensures value { result ≡ (answers.said_attachment (kdbx4.attachment payload.now index)).number }
    ensures place_after { place.new ≡ (answers.said_attachment (kdbx4.attachment payload.now index)).place }
    ensures figures_after { figures.new ≡ lent.values_or (answers.said_attachment (kdbx4.attachment payload.now index)) figures.old }
{
    let answer = inner_header::find_attachment(payload, index);
    let number = refusals::number(answer);
    *place = refusals::place(answer);
    if number != 0 {
        return number;
    }
    *figures = inner_header::attachment_values(answer);
    number
}

// The payload of an algorithm, a key, a run of attachments and a document: over the front of `out`, and its length in
// `count`.
#[unsafe(no_mangle)]
pub extern "C" fn kdbx4_inner_write(
    algorithm: u32,
    key: &[u8],
    run: &[u8],
    document: &[u8],
    out: &mut [u8],
    count: &mut usize,
) -> u8
    ensures value { result ≡ numbers.number_of (writer.writing algorithm key.now run.now document.now (length out.old)) }
    ensures out_after { out.new ≡ over (writer.written_bytes algorithm key.now run.now document.now (length out.old)) out.old }
    ensures count_after { count.new ≡ lent.count_or (writer.writing algorithm key.now run.now document.now (length out.old)) count.old }
{
    let answer = inner_header::writer::write(algorithm, key, run, document, out);
    match answer {
        Ok(n) => {
            *count = n;
            return 0;
        }
        Err(r) => return r.number(),
    }
}
