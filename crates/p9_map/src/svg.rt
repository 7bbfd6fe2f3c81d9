//! A text of SVG, as it is written.

ghost use Rattle.std.specs.Prelude.{◌≡◌, ◌++◌, [], OnOk};
ghost use Rattle.std.specs.String.{string_bytes};
ghost use Rattle.p9_map.specs.Escape.{escaped_text};
ghost use Rattle.p9_map.specs.Svg.{text_element};

use crate::escape::escaped;
use p9_base::NoMemory;
use std::alloc::Allocator;

/// A text of SVG as far as it is written.
#[derive(Drop)]
pub(crate) struct Svg<A: Allocator> {
    pub text: String<A>,
}

impl<A: Allocator + Copy> Svg<A> {
    /// Nothing yet.
    pub fn new(alloc: A) -> Svg<A>
        ensures { string_bytes result.text ≡ [] }
    {
        Svg {
            text: String::new(alloc),
        }
    }

    /// Adds what is SVG already.
    pub fn push(&mut self, svg: &str) -> Result<(), NoMemory>
        ensures { OnOk result (string_bytes self.new.text ≡ string_bytes self.old.text ++ svg.now) }
    {
        self.text.push_str(svg)?;
        Ok(())
    }

    /// Adds a text, escaped.
    pub fn words(&mut self, text: &str) -> Result<(), NoMemory>
        ensures { OnOk result (string_bytes self.new.text
            ≡ string_bytes self.old.text ++ escaped_text text.now) }
    {
        let text = escaped(*self.text.allocator(), text)?;
        self.text.push_str(text.as_str())?;
        Ok(())
    }

    /// Adds a line of text that begins at a point, of a style.
    #[tactic(auto, unfolding(crate::specs::Svg::text_element))]
    pub fn line(&mut self, class: &str, x: u64, y: u64, text: &str) -> Result<(), NoMemory>
        ensures { OnOk result (string_bytes self.new.text
            ≡ string_bytes self.old.text ++ text_element class.now x y text.now) }
    {
        write!(self.text, "<text x=\"{x}\" y=\"{y}\" class=\"{class}\">")?;
        self.words(text)?;
        self.push("</text>\n")
    }
}
