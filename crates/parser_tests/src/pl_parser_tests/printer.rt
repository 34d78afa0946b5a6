//! Trees in a readable form: in place of a node its pieces, as long as there is one.

use super::piece::Piece;
use super::pieces::Pieces;
use pl_tree::Tree;
use std::alloc::{AllocError, Global};

/// What is written of a node.
#[derive(Clone, Copy)]
pub enum Detail {
    /// Its form alone.
    Shape,
    /// Its place too, after an `@`.
    Places,
}

/// What is written so far, and whether no blank follows it.
#[derive(Drop)]
struct Line {
    text: String,
    joined: bool,
}

impl Line {
    fn write(&mut self, word: &str, joined: bool) -> Result<(), AllocError> {
        self.joined = joined;
        self.text.push_str(word)
    }

    /// Writes what stands between two pieces, unless none does.
    fn separate(&mut self, word: &str) -> Result<(), AllocError> {
        if self.joined {
            return Ok(());
        }
        self.write(word, true)
    }

    fn place(&mut self, alloc: Global, detail: Detail, at: u32) -> Result<(), AllocError> {
        match detail {
            Detail::Shape => Ok(()),
            Detail::Places => {
                let place = format!(in alloc; "@{at}")?;
                self.write(place.as_str(), false)
            }
        }
    }
}

/// A script's functions and statements, with a blank between two.
pub fn printed(alloc: Global, detail: Detail, tree: &Tree) -> Result<String, AllocError> {
    let mut line = Line {
        text: String::new(alloc),
        joined: true,
    };
    let mut pieces = Pieces::new(alloc);
    pieces.statements(&tree.statements)?;
    pieces.functions(&tree.functions)?;
    for _ in 0..u64::MAX {
        let Some(piece) = pieces.next() else {
            break;
        };
        write(alloc, detail, piece, &mut pieces, &mut line)?;
    }
    let Line { text, joined: _ } = line;
    Ok(text)
}

/// Writes a word, or puts the parts of a node before what is left.
fn write(
    alloc: Global,
    detail: Detail,
    piece: Piece,
    pieces: &mut Pieces<'_>,
    line: &mut Line,
) -> Result<(), AllocError> {
    match piece {
        Piece::Word(word) => line.write(word, false),
        Piece::Open(word) => line.write(word, true),
        Piece::Place(at) => line.place(alloc, detail, at),
        Piece::Bracket(at) => {
            line.write("[]", false)?;
            line.place(alloc, detail, at)
        }
        Piece::Blank => line.separate(" "),
        Piece::Comma => line.separate(", "),
        Piece::Spelling => match pieces.spelling() {
            Some(spelling) => line.write(spelling.as_str(), false),
            None => Ok(()),
        },
        node => pieces.open(node),
    }
}
