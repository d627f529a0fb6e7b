//! Decimal numbers at the beginning of a text.
ghost use Rattle.std.specs.Prelude.{◌≡◌, ◌↔◌, ◌≤◌, ◌<◌, ◌^◌, ◌∷◌, ◌++◌, [], IsTrue, IfOk, IfErr, IfSome, IfNone, take, length};
ghost use Rattle.std.specs.Fmt.{decimal};
ghost use Rattle.fx_base.specs.Forms.{Begins, GoesTo, IsIn, IsNumber, IsOptional, Reads, digits_of};

/// Whether some number of the range begins with the digits of this one.
fn begins_one(value: u32, low: u32, high: u32) -> bool
    requires small { value < 2 ^ 20 }
    requires range { (low ≤ high) × (high < 2 ^ 16) }
    ensures { IsTrue result ↔ Begins (IsNumber low high) (decimal value) }
{
    if value == 0 {
        return low == 0;
    }
    // The least and the greatest number with these digits and as many more.
    let mut least = value;
    let mut greatest = value;
    while least <= high {
        if low <= greatest {
            return true;
        }
        least *= 10;
        greatest = greatest * 10 + 9;
    }
    false
}

/// This number, if some number of the range begins with its digits.
fn begun(value: u32, low: u32, high: u32) -> Option<u32>
    requires small { value < 2 ^ 20 }
    requires range { (low ≤ high) × (high < 2 ^ 16) }
    ensures same { IfSome result (λ same. same ≡ value) }
    ensures begins { IfSome result (λ _. Begins (IsNumber low high) (decimal value)) }
    ensures none { IfNone result (¬ Begins (IsNumber low high) (decimal value)) }
{
    if begins_one(value, low, high) {
        Some(value)
    } else {
        None
    }
}

/// The number that was read with one digit more, if some number of the range begins with it.
fn longer(read: Option<u32>, digit: u8, low: u32, high: u32) -> Option<u32>
    requires range { (low ≤ high) × (high < 2 ^ 16) }
    requires read { IfSome read (λ value. value ≤ high) }
    ensures digits { IfSome result (λ value. decimal value ≡ digits_of read ++ digit ∷ []) }
    ensures begins { IfSome result (λ value. Begins (IsNumber low high) (decimal value)) }
    ensures fits { IfSome result (λ value. value ≤ high) }
    ensures none { IfNone result (¬ Begins (IsNumber low high) (digits_of read ++ digit ∷ [])) }
{
    if !digit.is_ascii_digit() {
        return None;
    }
    let last = u32::from(digit - b'0');
    match read {
        None => begun(last, low, high),
        Some(0) => None,
        Some(value) => begun(value * 10 + last, low, high),
    }
}

/// The longest prefix of the text with which some number of the range begins, where it is such a number: the number and
/// its length, and else the prefix's length.
pub(crate) fn number(text: &[u8], low: u32, high: u32) -> Result<(u32, usize), usize>
    requires range { (low ≤ high) × (high < 2 ^ 16) }
    ensures ok { IfOk result (λ found. IsNumber low high (take found.1 text.now) found.0
        × GoesTo (IsNumber low high) text.now found.1) }
    ensures err { IfErr result (λ at. (¬ IsIn (IsNumber low high) (take at text.now))
        × GoesTo (IsNumber low high) text.now at) }
{
    let mut read = None;
    for (at, byte) in text.iter().enumerate() {
        match longer(read, *byte, low, high) {
            Some(value) => read = Some(value),
            None => return ended(read, at, low),
        }
    }
    ended(read, text.len(), low)
}

/// What was read, if it isn't below the range.
fn ended(read: Option<u32>, at: usize, low: u32) -> Result<(u32, usize), usize>
    ensures ok { IfOk result (λ found. (read ≡ Some found.0) × (low ≤ found.0) × (found.1 ≡ at)) }
    ensures err { IfErr result (λ end. (end ≡ at) × IfSome read (λ value. value < low)) }
{
    match read {
        Some(value) if low <= value => Ok((value, at)),
        _ => Err(at),
    }
}

/// A text that is a number of the range.
fn whole_number(text: &[u8], low: u32, high: u32) -> Result<u32, usize>
    requires range { (low ≤ high) × (high < 2 ^ 16) }
    ensures { Reads (IsNumber low high) text.now result }
{
    match number(text, low, high) {
        Ok((_, at)) if at < text.len() => Err(at),
        Ok((value, _)) => Ok(value),
        Err(at) => Err(at),
    }
}

/// Nothing, which stands for `absent`, or the mark and a number of the range.
pub(crate) fn optional(
    text: &[u8],
    absent: u32,
    mark: u8,
    low: u32,
    high: u32,
) -> Result<u32, usize>
    requires range { (low ≤ high) × (high < 2 ^ 16) }
    requires fits { length text.now < 2 ^ 32 }
    ensures { Reads (IsOptional absent mark low high) text.now result }
{
    match text {
        [] => Ok(absent),
        [first, rest @ ..] if *first == mark => match whole_number(rest, low, high) {
            Ok(value) => Ok(value),
            Err(at) => Err(at + 1),
        },
        _ => Err(0),
    }
}
