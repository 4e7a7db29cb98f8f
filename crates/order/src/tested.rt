// Orders that have been tested.
ghost use Rattle.std.specs.Prelude.{◌≡◌, true};
ghost use Rattle.order.specs.Order.{is_order};

// An order that goes place by place.
#[derive(Clone, Copy)]
pub(crate) struct Listed<'a> {
    pub(crate) list: &'a [u8; 54],
    ghost is_order: { is_order list.now ≡ true },
}

// An order that has been tested: the default one, which goes by shifts and masks, or any other.
#[derive(Clone, Copy)]
pub(crate) enum Order<'a> {
    Default,
    Other(Listed<'a>),
}
