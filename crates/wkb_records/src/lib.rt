// Lines as WKB records. What a record is stands in the book; that what was written is read back, in proofs/.
#![tactic(auto)]

ghost use Rattle.std.specs.Prelude.{◌≡◌};
ghost use Rattle.wkb_records.specs.Orders.{order_of};

// The order of a number's bytes: the greatest first, or the least.
#[derive(Clone, Copy)]
pub enum Order {
    Big = 0,
    Little = 1,
}

impl Order {
    // The order that a byte tells: 0 has the greatest first, any other the least.
    pub fn of(byte: u8) -> Order
        ensures { result ≡ order_of byte }
    {
        if byte == 0 { Order::Big } else { Order::Little }
    }
}
