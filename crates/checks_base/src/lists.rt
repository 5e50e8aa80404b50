//! Lists.
use crate::common::text;
use mt_containers::List;
use mt_tokens::TextList;
use std::test::Fail;

/// The words `b` and `a`, in this order.
fn words(rt: &HostRuntime) -> Result<TextList, Fail> {
    let mut list = TextList::new(rt.alloc());
    for word in ["b", "a"] {
        list.push(text(rt, word)?)?;
    }
    Ok(list)
}

#[test]
fn a_list_of_texts_keeps_their_order(rt: HostRuntime) -> Result<(), Fail> {
    assert!(rt; TextList::new(rt.alloc()).is_empty());
    let list = words(&rt)?;
    assert!(rt; list.len() == 2 && list.as_slice().len() == 2 && !list.is_empty());
    assert!(rt; list.get(0).map(|text| text.as_str()) == Some("b"));
    assert!(rt; list.get(2).is_none());
    Ok(())
}

#[test]
fn a_list_is_copied_and_compared(rt: HostRuntime) -> Result<(), Fail> {
    let list = words(&rt)?;
    let mut copy = list.clone()?;
    assert!(rt; copy == list);
    copy.append(list)?;
    assert!(rt; copy.len() == 4);
    let last = copy.pop().ok_or("a last text")?;
    assert!(rt; last.as_str() == "a" && copy.len() == 3);
    Ok(())
}

#[test]
fn a_list_is_made_of_values(rt: HostRuntime) -> Result<(), Fail> {
    let numbers = List::from_slice(rt.alloc(), &[3u32, 1, 2])?;
    assert!(rt; numbers.last().copied() == Some(2));
    let numbers = List::from_vec(numbers.into_vec());
    assert!(rt; numbers.as_slice() == [3, 1, 2].as_slice());
    let choices = List::from_slice(rt.alloc(), &[Some(4u32), None])?.clone()?;
    assert!(rt; choices.as_slice() == [Some(4), None].as_slice());
    Ok(())
}

#[test]
fn a_list_is_walked_from_the_first(rt: HostRuntime) -> Result<(), Fail> {
    let numbers = List::from_slice(rt.alloc(), &[3u32, 1, 2])?;
    let mut place = 0u32;
    for number in &numbers {
        place = place.wrapping_mul(10).wrapping_add(*number);
    }
    assert!(rt; place == 312);
    assert!(rt; numbers.iter().copied().eq([3, 1, 2].iter().copied()));
    let mut place = 0u32;
    for number in numbers {
        place = place.wrapping_mul(10).wrapping_add(number);
    }
    assert!(rt; place == 312);
    Ok(())
}
