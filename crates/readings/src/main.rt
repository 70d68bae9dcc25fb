// Reads each line of standard input as a manifest, and prints what the reader answers.
#![tactic(auto)]

use anyhow::Context;
use reader::read;
use std::alloc::{AllocError, Global};
use std::io;
use tables::{Attribute, Element, ManifestRows, Row};

// A line has the rows of the element table, those of the attribute table, a count and a text, with a
// blank between them. The manifest is the text so many times. In the text %41 stands for the byte of
// that hexadecimal number.
#[derive(Clone, Copy)]
enum Escape {
    None,
    Begun,
    Half(u8),
}

fn hex(b: u8) -> u8 {
    match b {
        b'0'..=b'9' => b - b'0',
        b'a'..=b'f' => b - b'a' + 10,
        _ => 0,
    }
}

// Puts the bytes of the text behind those that are there.
fn unescape(bytes: &mut Vec<u8>, text: &str) -> Result<(), AllocError> {
    let mut escape = Escape::None;
    for b in text.bytes() {
        match escape {
            Escape::None => {
                if b == b'%' {
                    escape = Escape::Begun;
                } else {
                    bytes.push(b)?;
                }
            }
            Escape::Begun => escape = Escape::Half(hex(b)),
            Escape::Half(high) => {
                bytes.push(high % 16 * 16 + hex(b) % 16)?;
                escape = Escape::None;
            }
        }
    }
    Ok(())
}

// The bytes of the text, so many times.
fn repeated(heap: Global, text: &str, count: u32) -> Result<Vec<u8>, AllocError> {
    let mut bytes = Vec::new(heap);
    for _ in 0..count {
        unescape(&mut bytes, text)?;
    }
    Ok(bytes)
}

// Prints a row for each element and each attribute.
fn print_rows(rt: &HostRuntime, elements: &[Element], attributes: &[Attribute]) -> io::Result<()> {
    for e in elements {
        let (name, text, parent, level) = (e.name, e.text, e.parent, e.level);
        println!(rt;
            "  <{} {} in {parent} at {level} text {} {}",
            name.at, name.len, text.at, text.len
        )?;
    }
    for a in attributes {
        let (name, value, element) = (a.name, a.value, a.element);
        println!(rt;
            "  @{} {} of {element} is {} {}",
            name.at, name.len, value.at, value.len
        )?;
    }
    Ok(())
}

// Prints what comes of a manifest with so much room.
fn print_reading(rt: &HostRuntime, manifest: &[u8], rows: &mut ManifestRows) -> io::Result<()> {
    match read(manifest, rows) {
        Ok(()) => {
            println!(rt; "accepted")?;
            print_rows(rt, rows.elements.rows(), rows.attributes.rows())
        }
        Err(fault) => println!(rt; "refused {} at {}", fault.number(), fault.byte),
    }
}

// The rows that a table may use.
fn room<R>(rows: &mut [R], count: usize) -> &mut [R] {
    let end = count.min(rows.len());
    &mut rows[..end]
}

// Prints what comes of the manifest of a line.
fn print_line(rt: &HostRuntime, line: &str) -> anyhow::Result<()> {
    let (e, rest) = line.split_once(' ').context("no room for elements")?;
    let (a, rest) = rest.split_once(' ').context("no room for attributes")?;
    let (count, text) = rest.split_once(' ').context("no count")?;
    let manifest = repeated(rt.alloc(), text, count.parse::<u32>()?)?;
    let e = e.parse::<usize>()?;
    let a = a.parse::<usize>()?;
    let mut elements = [Element::zeroed(); 64];
    let mut attributes = [Attribute::zeroed(); 64];
    let mut rows = ManifestRows::new(room(&mut elements, e), room(&mut attributes, a));
    print_reading(rt, manifest.as_slice(), &mut rows)?;
    Ok(())
}

fn main(rt: HostRuntime) -> anyhow::Result<()> {
    for line in rt.lines(rt.alloc()) {
        let line = line?;
        print_line(&rt, line.as_str())?;
    }
    Ok(())
}
