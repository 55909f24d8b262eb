use crate::{entries_text, put_entry};
use expr_tree::{Ids, Text};
use item_list::Items;
use journal::{Entry, Event, Journal, Wait};
use name_table::Names;
use std::alloc::Global;
use std::test::Fail;

fn no_names(alloc: Global) -> Result<Names, Fail> {
    Ok(Names::of_texts(alloc, &Items::new(alloc), &Items::new(alloc))?)
}

fn one_id(alloc: Global) -> Result<Ids, Fail> {
    let mut ids = Items::new(alloc);
    ids.push(1)?;
    Ok(ids)
}

/// An item is submitted, waited for and taken.
fn three_entries(alloc: Global) -> Result<Journal, Fail> {
    let mut entries = Items::new(alloc);
    entries.push(Entry {
        kernel: 0,
        event: Event::Submit(1),
    })?;
    let wait = Wait::All(one_id(alloc)?);
    entries.push(Entry {
        kernel: 0,
        event: Event::Yield(wait),
    })?;
    entries.push(Entry {
        kernel: 1,
        event: Event::Take(1),
    })?;
    Ok(entries)
}

#[test]
fn entries_have_a_line_each(rt: HostRuntime) -> Result<(), Fail> {
    let names = no_names(rt.alloc())?;
    let entries = three_entries(rt.alloc())?;
    let text = entries_text(rt.alloc(), entries.as_slice(), &names)?;
    assert_eq!(rt;
        text.as_str(),
        "1 0 Submit 1\n2 0 Yield All 1\n3 1 Take 1\n"
    );
    Ok(())
}

#[test]
fn a_line_stands_behind_what_was_there(rt: HostRuntime) -> Result<(), Fail> {
    let names = no_names(rt.alloc())?;
    let mut text = Text::new(rt.alloc());
    text.append("1 0 Resume\n")?;
    let entry = Entry {
        kernel: 0,
        event: Event::Close,
    };
    put_entry(rt.alloc(), &mut text, 2, &entry, &names)?;
    assert_eq!(rt; text.as_str(), "1 0 Resume\n2 0 Close\n");
    Ok(())
}
