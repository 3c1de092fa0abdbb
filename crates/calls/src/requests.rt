// The requests by the arguments that they take.
use crate::answers::Reply;
use crate::fault::Fault;
use crate::words::first_word;
use crate::{
    MAX_LINE, no_argument, number_list, numbered, one_type, pervading, records, sheets, sided,
    sizes, two_types, values,
};

pub(crate) fn answered(line: &[u8], input: &mut [u8], res: &mut [u8]) -> Result<Reply, Fault> {
    if MAX_LINE < line.len() {
        return Err(Fault::Long);
    }
    let name = first_word(line);
    if let Some(request) = one_type::named(name) {
        return one_type::answered(request, line, input, res);
    }
    if let Some(request) = two_types::named(name) {
        return two_types::answered(request, line, input, res);
    }
    if let Some(request) = sided::named(name) {
        return sided::answered(request, line, input, res);
    }
    if let Some(request) = numbered::named(name) {
        return numbered::answered(request, line, input, res);
    }
    if let Some(request) = records::named(name) {
        return records::answered(request, line, input, res);
    }
    answered_otherwise(name, line, input, res)
}

// Requests that are not on types alone, and those that are the only ones to take their arguments.
fn answered_otherwise(
    name: &[u8],
    line: &[u8],
    input: &mut [u8],
    res: &mut [u8],
) -> Result<Reply, Fault> {
    if let Some(request) = values::named(name) {
        return values::answered(request, line, input, res);
    }
    if let Some(request) = sizes::named(name) {
        return sizes::answered(request, line);
    }
    if let Some(request) = no_argument::named(name) {
        return no_argument::answered(request, line, res);
    }
    if let Some(request) = sheets::named(name) {
        return sheets::answered(request, line, input, res);
    }
    match name {
        b"pervade" => pervading::answered(line, input, res),
        b"nums_scalar" => number_list::answered(line, res),
        _ => Err(Fault::Request),
    }
}
