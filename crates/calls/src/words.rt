// The words of a line, of which the first names the request and the others are its arguments. Only a space parts words, and where two
// spaces meet, or one stands at an end, there is an empty word.
use crate::fault::Fault;

pub(crate) fn is_space(byte: &u8) -> bool {
    *byte == b' '
}

pub(crate) fn first_word(line: &[u8]) -> &[u8] {
    line.split(is_space).next().unwrap_or(line)
}

pub(crate) fn second_word(line: &[u8]) -> Result<&[u8], Fault> {
    line.split(is_space).nth(1).ok_or(Fault::Words)
}

// For a line of any number of words: none may be empty.
pub(crate) fn no_empty_word(line: &[u8]) -> Result<(), Fault> {
    if line.split(is_space).any(|word| word.is_empty()) {
        return Err(Fault::Words);
    }
    Ok(())
}

pub(crate) fn no_argument(line: &[u8]) -> Result<(), Fault> {
    let mut arguments = line.split(is_space).skip(1);
    nothing_more(arguments.next())
}

pub(crate) fn one_argument(line: &[u8]) -> Result<&[u8], Fault> {
    let mut arguments = line.split(is_space).skip(1);
    let first = argument(arguments.next())?;
    nothing_more(arguments.next())?;
    Ok(first)
}

pub(crate) fn two_arguments(line: &[u8]) -> Result<(&[u8], &[u8]), Fault> {
    let mut arguments = line.split(is_space).skip(1);
    let first = argument(arguments.next())?;
    let second = argument(arguments.next())?;
    nothing_more(arguments.next())?;
    Ok((first, second))
}

pub(crate) fn three_arguments(line: &[u8]) -> Result<(&[u8], &[u8], &[u8]), Fault> {
    let mut arguments = line.split(is_space).skip(1);
    let first = argument(arguments.next())?;
    let second = argument(arguments.next())?;
    let third = argument(arguments.next())?;
    nothing_more(arguments.next())?;
    Ok((first, second, third))
}

fn argument(word: Option<&[u8]>) -> Result<&[u8], Fault> {
    word.filter(|word| !word.is_empty()).ok_or(Fault::Words)
}

fn nothing_more(word: Option<&[u8]>) -> Result<(), Fault> {
    match word {
        None => Ok(()),
        Some(_) => Err(Fault::Words),
    }
}
