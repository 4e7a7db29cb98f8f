// The order of a vector, and vectors of orders.
use crate::vector::{Vector, joined, refused};

// Whether byte 180, the number of entries, is one that a vector has.
pub(crate) fn order_fits(vector: &Vector) -> bool {
    vector.byte(180) <= 60
}

// The list that a call gets as its order: as many entries, from byte 181 on, as byte 180 says.
pub(crate) fn order_of(vector: &Vector) -> &[u8] {
    vector.part(181, vector.number(180, 1))
}

// Kind 36: whether a list is an order, the refusal of its burst width, and this width.
pub(crate) fn list_agrees(vector: &Vector) -> bool {
    let order = order_of(vector);
    let good = u8::from(order::is_order(order));
    let width = bursts::burst_width(order);
    vector.number(1, 3) == joined(good, refused(width), width.unwrap_or(0))
}

// Kind 37: the default order.
pub(crate) fn default_agrees(vector: &Vector) -> bool {
    vector.bytes_agree(1, &order::default_order())
}
