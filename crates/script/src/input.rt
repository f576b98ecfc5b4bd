// Numbers and bytes of a script, from standard input.
ghost use Rattle.std.specs.Prelude.{◌≡◌, ◌≤◌, IfOk, IfSome, length};
ghost use Rattle.std.specs.Io.KnownBytes.{IsAtEnd};
ghost use Rattle.script.specs.Taken.{Taken};

use intake::read_full;
use std::io;
use std::io::Read;

// A number of up to four bytes, highest first; none where the script has ended or the number would be longer. What
// was read is gone from the input, also where a read fails behind it.
pub fn number<R: Read>(input: &mut R, width: usize) -> io::Result<Option<u32>>
    ensures cut { IfOk result (λ n. n ≡ None → width ≤ 4 → IsAtEnd (R.remaining input.new)) }
    ensures taken { Taken (R.remaining input.old) (R.remaining input.new) }
{
    let mut bytes = [0; 4];
    if width > 4 {
        return Ok(None);
    }
    if read_full(input, &mut bytes[4 - width..])? < width {
        return Ok(None);
    }
    Ok(Some(u32::from_be_bytes(bytes)))
}

// Bytes behind their number; how many, and none where the script has ended or there is no room.
#[tactic(auto, using(crate::proofs::Taken::taking))]
pub fn take<R: Read>(input: &mut R, buf: &mut [u8], width: usize) -> io::Result<Option<usize>>
    ensures room { IfOk result (λ n. IfSome n (λ k. k ≤ length buf.new)) }
    ensures taken { Taken (R.remaining input.old) (R.remaining input.new) }
{
    let Some(n) = number(input, width)? else {
        return Ok(None);
    };
    let n = n as usize;
    if buf.len() < n {
        return Ok(None);
    }
    if read_full(input, &mut buf[..n])? < n {
        return Ok(None);
    }
    Ok(Some(n))
}

// So many words of four bytes; how many, and none where the script has ended or there is no room.
#[tactic(auto, using(crate::proofs::Taken::taking))]
pub fn take_words<R: Read>(
    input: &mut R,
    words: &mut [u32],
    count: usize,
) -> io::Result<Option<usize>>
    ensures all { IfOk result (λ n. IfSome n (λ k. (k ≡ count) × (k ≤ length words.new))) }
    ensures cut { IfOk result (λ n. n ≡ None → count ≤ length words.old → IsAtEnd (R.remaining input.new)) }
    ensures taken { Taken (R.remaining input.old) (R.remaining input.new) }
{
    if words.len() < count {
        return Ok(None);
    }
    for word in &mut words[..count] {
        let Some(n) = number(input, 4)? else {
            return Ok(None);
        };
        *word = n;
    }
    Ok(Some(count))
}
