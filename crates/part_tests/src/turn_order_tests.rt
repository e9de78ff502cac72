//! Orders against numbers from outside.
use gst_value::List;
use std::alloc::Global;
use std::fmt::Write;
use std::process::Abort;
use std::test::Fail;
use turn_order::*;

/// The first ten draws from 0 and from 1, as a computation in another language gives them, and listed numbers.
const ZERO: &str =
    "167951807 218396424 1299921937 861605236 823830125 1204436891 169888184 764459975 1036791264 959018139 ";

const ONE: &str =
    "908834774 1093944153 1392341196 822192870 1708211034 1074839795 1189567130 140486902 1803298089 426146746 ";

const LISTED: &str = "7 4294967295 7 0 1 2 3 4 5 6 ";

/// The first ten numbers of an order. Those of the same order by their remainders are compared.
fn told(alloc: Global, order: Order, again: Order) -> Result<String, Fail> {
    let mut told = String::new(alloc);
    let (mut turns, mut among) = (Turns::new(order), Turns::new(again));
    for _ in 0..10 {
        let number = turns.next();
        write!(told, "{number} ")?;
        if among.next_among(3) != (number % 3) as usize {
            Err("the remainder")?;
        }
    }
    Ok(told)
}

fn listed(alloc: Global) -> Result<Order, Fail> {
    Ok(Order::Listed(List::from_vec(vec![in alloc; 7, u32::MAX, 7]?)))
}

fn check(rt: &impl Abort, told: String, wanted: &str) {
    assert_eq!(rt; told.as_str(), wanted);
}

#[test]
fn first_numbers(rt: HostRuntime) -> Result<(), Fail> {
    let alloc = rt.alloc();
    check(&rt, told(alloc, Order::Drawn(0), Order::Drawn(0))?, ZERO);
    check(&rt, told(alloc, Order::Drawn(1), Order::Drawn(1))?, ONE);
    check(&rt, told(alloc, listed(alloc)?, listed(alloc)?)?, LISTED);
    Ok(())
}
