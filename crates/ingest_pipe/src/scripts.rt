//! Scripts of pipelines.

use crate::literal::Literal;
use plain_data::Text;

/// A script of a pipeline. Contracts see it as plain data.
pub struct PipeScript {
    /// Where it stands, as `pipeline.0.set.if`.
    pub path: Text,
    pub text: Text,
    /// Whether it tests a document, and does not change one.
    pub test: bool,
    /// Its parameters: an object in which each number is a whole one of 64 bits with a sign.
    pub params: Literal,
}

impl Drop for PipeScript {
    fn drop(self) {
        let PipeScript {
            path: _path,
            text: _text,
            test: _,
            params: _params,
        } = self;
    }
}
