// NAME VALUE: requests on a value handed in, which is `num BITS`, `list BITS..` or `type HEX`.
use crate::answers::{Reply, counted, delivered, sized, without_value};
use crate::arguments::hex;
use crate::fault::Fault;
use crate::numbers::{MAX_NUMBERS, parse_number, parse_numbers, to_bits};
use crate::parts::front;
use crate::size_list::list_sizes;
use crate::words::{no_empty_word, second_word, two_arguments};
use limits::MAX_SIZES;
use velgrodis::{
    Answer as Crossed, VALUE, vg_as_dim, vg_as_dims, vg_val_first_row, vg_val_last_row,
    vg_val_rank, vg_val_row, vg_val_row_count, vg_val_scalar, vg_val_spec, vg_val_ty,
};

#[derive(Clone, Copy)]
pub(crate) enum Request {
    Ty,
    Spec,
    Scalar,
    RowCount,
    Rank,
    Row,
    FirstRow,
    LastRow,
    AsDim,
    AsDims,
}

pub(crate) fn named(name: &[u8]) -> Option<Request> {
    match name {
        b"val_ty" => Some(Request::Ty),
        b"val_spec" => Some(Request::Spec),
        b"val_scalar" => Some(Request::Scalar),
        b"val_row_count" => Some(Request::RowCount),
        b"val_rank" => Some(Request::Rank),
        b"val_row" => Some(Request::Row),
        b"val_first_row" => Some(Request::FirstRow),
        b"val_last_row" => Some(Request::LastRow),
        b"as_dim" => Some(Request::AsDim),
        b"as_dims" => Some(Request::AsDims),
        _ => None,
    }
}

// A value as a host hands it in: by the number of its kind, 0 the number, 1 the list, 2 the type. What is lent for another kind is not
// looked at.
#[derive(Clone, Copy)]
struct Value<'a> {
    kind: u64,
    x: f64,
    list: &'a [f64],
    ty: &'a [u8],
}

pub(crate) fn answered(
    request: Request,
    line: &[u8],
    input: &mut [u8],
    res: &mut [u8],
) -> Result<Reply, Fault> {
    let mut list = [0.0f64; MAX_NUMBERS];
    let value = hand_in(line, &mut list, input)?;
    Ok(call(request, value, res))
}

// A value's first word is judged before the number of its words.
fn hand_in<'a>(line: &[u8], list: &'a mut [f64], input: &'a mut [u8]) -> Result<Value<'a>, Fault> {
    no_empty_word(line)?;
    match second_word(line)? {
        b"num" => number_in(line),
        b"list" => list_in(line, list),
        b"type" => type_in(line, input),
        _ => Err(Fault::Value),
    }
}

fn number_in(line: &[u8]) -> Result<Value<'static>, Fault> {
    let (_, word) = two_arguments(line)?;
    Ok(Value {
        kind: 0,
        x: parse_number(word)?,
        list: &[],
        ty: &[],
    })
}

fn list_in<'a>(line: &[u8], list: &'a mut [f64]) -> Result<Value<'a>, Fault> {
    Ok(Value {
        kind: 1,
        x: 0.0,
        list: parse_numbers(line, 2, list)?,
        ty: &[],
    })
}

fn type_in<'a>(line: &[u8], input: &'a mut [u8]) -> Result<Value<'a>, Fault> {
    let (_, word) = two_arguments(line)?;
    Ok(Value {
        kind: 2,
        x: 0.0,
        list: &[],
        ty: hex(word, input)?,
    })
}

fn call(request: Request, v: Value<'_>, res: &mut [u8]) -> Reply {
    match request {
        Request::Ty => delivered(vg_val_ty(v.kind, v.x, v.list, v.ty, res)),
        Request::Spec => delivered(vg_val_spec(v.kind, v.x, v.list, v.ty, res)),
        Request::Scalar => delivered(vg_val_scalar(v.kind, v.x, v.list, v.ty, res)),
        Request::RowCount => sized(vg_val_row_count(v.kind, v.x, v.list, v.ty)),
        Request::Rank => counted(vg_val_rank(v.kind, v.x, v.list, v.ty)),
        Request::Row => row(v, res),
        Request::FirstRow => first_row(v, res),
        Request::LastRow => last_row(v, res),
        Request::AsDim => sized(vg_as_dim(v.kind, v.x, v.list, v.ty)),
        Request::AsDims => dims(v, res),
    }
}

// A row that is a number is handed over beside the result.
fn row(v: Value<'_>, res: &mut [u8]) -> Reply {
    let mut number = 0.0f64;
    let answer = vg_val_row(v.kind, v.x, v.list, v.ty, &mut number, res);
    in_row(answer, number)
}

fn first_row(v: Value<'_>, res: &mut [u8]) -> Reply {
    let mut number = 0.0f64;
    let answer = vg_val_first_row(v.kind, v.x, v.list, v.ty, &mut number, res);
    in_row(answer, number)
}

fn last_row(v: Value<'_>, res: &mut [u8]) -> Reply {
    let mut number = 0.0f64;
    let answer = vg_val_last_row(v.kind, v.x, v.list, v.ty, &mut number, res);
    in_row(answer, number)
}

// A row's second number says whether it is a number.
fn in_row(answer: Crossed, number: f64) -> Reply {
    if answer.kind == VALUE {
        if answer.second == 1 {
            return Reply::Bits(to_bits(number));
        }
        return Reply::Typed(answer.first as usize);
    }
    without_value(answer)
}

// The result has room for the text of as many sizes as there can be.
fn dims(v: Value<'_>, res: &mut [u8]) -> Reply {
    let mut sizes = [0u64; MAX_SIZES];
    let answer = vg_as_dims(v.kind, v.x, v.list, v.ty, &mut sizes);
    if answer.kind == VALUE {
        let listed = front(&sizes, answer.first as usize);
        return Reply::Text(list_sizes(listed, res).unwrap_or(0));
    }
    without_value(answer)
}
