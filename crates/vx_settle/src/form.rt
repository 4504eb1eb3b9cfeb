//! What the fields of a position line say.

ghost use Rattle.std.specs.Prelude.{◌≡◌, ◌≤◌, IfOk, IfSome, unsigned_abs};
ghost use Rattle.vx_settle.specs.Form as spec;
ghost use Rattle.vx_settle.specs.Position.{IsPositionInRange};

use crate::fault::PositionFault;
use crate::limits::{LAST_MAX, QUANTITY_MAX};
use crate::position::{Contract, Position};
use vx_fields::Fields;
use vx_num::{read_decimal, read_signed};

/// The fields of a position line: contract, quantity and last price.
const FIELD_COUNT: usize = 3;

/// The places of a last price: one unit is a ten-thousandth of a point.
const LAST_PLACES: u32 = 4;

fn read_contract(text: &[u8]) -> Option<Contract>
    ensures { result ≡ spec.contract_of_text text.now }
{
    if text == b"VX".as_slice() {
        Some(Contract::Vx)
    } else if text == b"VXM".as_slice() {
        Some(Contract::Vxm)
    } else {
        None
    }
}

// A number of contracts, with a `-` where they were sold.
fn read_quantity(text: &[u8]) -> Option<i32>
    ensures value { result ≡ spec.quantity_of_text text.now }
    ensures in_range { IfSome result (λ quantity. unsigned_abs quantity ≤ QUANTITY_MAX) }
{
    let count = read_signed(text, 0, QUANTITY_MAX, QUANTITY_MAX)?;
    Some(count as i32)
}

// A price in points, in ten-thousandths of a point.
fn read_last(text: &[u8]) -> Option<u32>
    ensures value { result ≡ spec.last_of_text text.now }
    ensures in_range { IfSome result (λ last. last ≤ LAST_MAX) }
{
    let last = read_decimal(text, LAST_PLACES, u64::from(LAST_MAX)).ok()?;
    Some(last as u32)
}

/// The position that a line's fields say, or the first fault.
///
/// Takes no memory. A line has fields where it can be split; why it can't be is a fault by `PositionFault::from`.
///
/// # Errors
///
/// `Fields` where there are not three fields; else `Field` with the first, counted from 1, that is not
/// of its form or range.
pub fn position_of_fields(fields: &Fields<'_>) -> Result<Position, PositionFault>
    ensures value { result ≡ spec.position_of_fields fields.now }
    ensures in_range { IfOk result IsPositionInRange }
{
    if fields.len() != FIELD_COUNT {
        return Err(PositionFault::Fields);
    }
    let contract = read_contract(fields.field(0)).ok_or(PositionFault::Field(1))?;
    let quantity = read_quantity(fields.field(1)).ok_or(PositionFault::Field(2))?;
    let last = read_last(fields.field(2)).ok_or(PositionFault::Field(3))?;
    Ok(Position {
        contract,
        quantity,
        last,
    })
}
