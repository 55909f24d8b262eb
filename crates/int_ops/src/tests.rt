use crate::{Product, Progression, Sum, power, quotient};
use std::test::Fail;

#[test]
fn the_least_integer_is_in_range(rt: HostRuntime) -> Result<(), Fail> {
    assert_eq!(rt; power(-2, 127).ok(), Some(i128::MIN));
    assert_eq!(rt; power(2, 127).ok(), None);
    assert_eq!(rt; quotient(i128::MIN, -1).ok(), None);
    Ok(())
}

#[test]
fn sums_and_products_are_judged_as_a_whole(rt: HostRuntime) -> Result<(), Fail> {
    let mut sum = Sum::of(i128::MAX);
    sum.add(1);
    sum.add(-2);
    assert_eq!(rt; sum.judged().ok(), Some(i128::MAX - 1));
    let mut product = Product::one();
    product.multiply(i128::MIN);
    product.multiply(-1);
    assert_eq!(rt; product.judged().ok(), None);
    product.multiply(-1);
    assert_eq!(rt; product.judged().ok(), Some(i128::MIN));
    Ok(())
}

#[test]
fn the_greatest_integer_is_the_last(rt: HostRuntime) -> Result<(), Fail> {
    let mut numbers = Progression::new(i128::MAX - 2, i128::MAX, 2);
    assert_eq!(rt; numbers.next(), Some(i128::MAX - 2));
    assert_eq!(rt; numbers.next(), Some(i128::MAX));
    assert_eq!(rt; numbers.next(), None);
    Ok(())
}
