use crate::sym::Sym;
use crate::text::Text;
use item_list::Items;

/// Texts in an order.
pub type Texts = Items<Text>;

/// Symbols in an order.
pub type Syms = Items<Sym>;

/// Numbers of items of the queue.
pub type Ids = Items<u64>;
