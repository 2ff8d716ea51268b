//! `ccdom` builds a page over a host, removes a menu that holds itself through both heaps, and writes what comes of it.
#![tactic(auto)]

mod document;

use anyhow::Result;
use cc_host::{Event, Item, Marks, Name, Object, Reason, Root};
use document::{DATA, Document, PROXY};

/// Writes an object. A native has a title of the program's.
fn show(rt: &impl Print, document: &Document, word: &str, name: Name) -> Result<()> {
    match name {
        Name::Native(n) => println!(rt; "{word}{} #{}", document.title(n), n.0)?,
        Name::Reflector(n) => println!(rt; "{word}reflector of {}", document.title(n))?,
        Name::Script(n) => println!(rt; "{word}@{}", n.0)?,
    }
    Ok(())
}

/// Writes what was told, and how many objects are there. The row of what was freed goes.
fn report(rt: &impl Print, document: &mut Document, what: &str) -> Result<()> {
    println!(rt; "{what}")?;
    for _ in 0..u64::MAX {
        match document.host.next_told() {
            Some(Item::Event(Event::Unlinked(name))) => show(rt, document, "  unlinked ", name)?,
            Some(Item::Event(Event::Freed(name))) => {
                show(rt, document, "  freed ", name)?;
                document.remove_row(name);
            }
            Some(_) => println!(rt; "  the collection was given up")?,
            None => break,
        }
    }
    let (natives, scripts) = (document.host.natives(), document.host.scripts());
    println!(rt; "  natives: {natives}, script objects: {scripts}")?;
    Ok(())
}

/// Writes the steps by which the roots lead to the menu.
fn explain(rt: &impl Print, document: &mut Document, menu: Object) -> Result<()> {
    let led = document.host.why(menu)?;
    println!(rt; "does anything lead to the menu? {led}")?;
    for _ in 0..u64::MAX {
        let Some(Item::Step(name, reason)) = document.host.next_step() else {
            break;
        };
        show(rt, document, "  ", name)?;
        match reason {
            Reason::Root(_) => println!(rt; "    held by a root")?,
            Reason::Edge(by) => show(rt, document, "    held by ", by)?,
            Reason::Pair(_, key) => show(rt, document, "    of an entry with ", key)?,
        }
    }
    Ok(())
}

/// Looks an element up by its title, and lets it go again.
fn look_up(rt: &impl Print, document: &mut Document, title: &str) -> Result<()> {
    match document.find(title)? {
        Some(element) => show(rt, document, "the index finds ", element.name)?,
        None => println!(rt; "the index finds no {title}")?,
    }
    document.let_go()?;
    Ok(())
}

/// A page with a text and a menu of two entries. The menu listens for its second entry, which has private data on the menu, and
/// of which another world has a proxy. The page's root, the page and the menu.
fn build(document: &mut Document) -> Result<(Root, Object, Object)> {
    document.host.new_map(DATA)?;
    let page = document.make("page")?;
    let root = document.host.root(page)?;
    let menu = document.append(page, "menu")?;
    document.append(menu, "first entry")?;
    let second = document.append(menu, "second entry")?;
    document.listen(menu, second)?;
    document.remember(second, menu)?;
    document.share(second)?;
    let text = document.append(page, "text")?;
    document.listen(text, page)?;
    document.let_go()?;
    Ok((root, page, menu))
}

/// Goes on with the page in frames. All that was told is fetched, so want of memory alone can hinder one.
fn go_on(rt: &impl Print, document: &mut Document, page: Object) -> Result<()> {
    for _ in 0..6 {
        document.append(page, "note")?;
        document.frame(6)?;
        report(rt, document, "a note is added, and a frame done")?;
    }
    Ok(())
}

/// Removes the menu, which goes once another world let its proxy of an entry go.
fn remove_menu(rt: &impl Print, document: &mut Document, page: Object, menu: Object) -> Result<()> {
    document.remove(page, menu)?;
    report(rt, document, "the menu is removed")?;
    explain(rt, document, menu)?;
    document.host.set_script_root(PROXY, None)?;
    report(rt, document, "the other world let its proxy go")?;
    explain(rt, document, menu)?;
    go_on(rt, document, page)?;
    look_up(rt, document, "menu")?;
    look_up(rt, document, "text")
}

fn run(rt: &impl Print, document: &mut Document) -> Result<()> {
    let (root, page, menu) = build(document)?;
    report(rt, document, "the page is built")?;
    remove_menu(rt, document, page, menu)?;
    document.let_go()?;
    document.host.release(root)?;
    report(rt, document, "the page is released")?;
    document.host.settle()?;
    report(rt, document, "the document is settled")
}

fn main(rt: HostRuntime) -> Result<()> {
    let mut marks = Marks::new();
    let mut document = Document::new(rt.alloc(), &mut marks)?;
    run(&rt, &mut document)
}
