ghost use Rattle.std.specs.Prelude.{◌≡◌, ◌≢◌, ◌≤◌, ◌<◌, ◌+◌, ◌^◌, [], ◌∷◌, ◌++◌, ℕ, List, length, IfOk, OnOk, OnErr, IfErr, IfSome, IfNone};
ghost use Rattle.uefi_path_text.specs.parse.Paths.{IsSlash, place_after};
ghost use Rattle.uefi_path_text.specs.private.Places.{IsFrom};
ghost use Rattle.uefi_path_text.specs.private.Taking.{TakesNode, IsOfNoNodes, FollowsSlash};

use crate::parse::error::FromTextError;
use crate::parse::piece::read_piece;
use crate::parse::place::Place;
use crate::parse::text_node::TextNode;

/// The nodes of a path's text that weren't taken yet.
#[derive(Clone, Copy)]
pub(crate) struct TextNodes<'a> {
    /// What is left of the text.
    rest: &'a str,
    /// How many bytes are before it.
    offset: usize,
    /// Where the next node is.
    place: Place,
}

impl<'a> TextNodes<'a> {
    ghost use Rattle.uefi_path_text.specs.private.TextNodes.{text_node};
    ghost use Rattle.uefi_path_text.specs.declared.parse.place.Place.TheVariants.{Start};

    /// Returns the nodes of a text.
    pub(crate) fn new(text: &'a str) -> TextNodes<'a>
        ensures rest { result.rest.now ≡ text.now }
        ensures offset { result.offset ≡ 0 }
        ensures place { result.place ≡ Start }
    {
        TextNodes {
            rest: text,
            offset: 0,
            place: Place::Start,
        }
    }

    /// Takes the next node. At the end of the text there is none.
    pub(crate) fn next(&mut self) -> Result<Option<TextNode<'a>>, FromTextError>
        requires { self.old.offset + length self.old.rest.now < 2 ^ 64 }
        ensures node { IfOk result (λ taken. IfSome taken (λ node.
            TakesNode self.old.place self.old.rest.now (text_node node) self.new.rest.now)) }
        ensures place { IfOk result (λ taken. IfSome taken (λ node.
            self.new.place ≡ place_after (text_node node))) }
        ensures end { IfOk result (λ taken. IfNone taken (self.old.rest.now ≡ [])) }
        ensures offset { self.new.offset + length self.new.rest.now
            ≡ self.old.offset + length self.old.rest.now }
        ensures wrong { OnErr result (IsOfNoNodes self.old.place self.old.rest.now) }
        ensures fault { IfErr result (IsFrom self.old.offset (length self.old.rest.now)) }
    {
        let text = self.rest;
        if text.is_empty() {
            return Ok(None);
        }
        if let Some(rest) = after_mark(text, ',') {
            self.go_to(rest);
            self.place = Place::AfterComma;
            return Ok(Some(TextNode::EndInstance));
        }
        let Some(piece) = after_slash(text, self.place) else {
            return Err(FromTextError::Argument(self.offset));
        };
        let start = self.offset + (text.len() - piece.len());
        match read_piece(piece, start) {
            Ok((node, rest)) => {
                self.go_to(rest);
                self.place = Place::AfterNode;
                Ok(Some(node))
            }
            Err(error) => Err(error),
        }
    }

    /// Returns an error at the next node if there is one.
    pub(crate) fn end(&self) -> Result<(), FromTextError>
        ensures end { OnOk result (self.now.rest.now ≡ []) }
        ensures some { OnErr result (0 < length self.now.rest.now) }
        ensures fault { IfErr result (IsFrom self.now.offset (length self.now.rest.now)) }
    {
        if self.rest.is_empty() {
            Ok(())
        } else {
            Err(FromTextError::Argument(self.offset))
        }
    }

    /// Goes to an end of what is left.
    fn go_to(&mut self, rest: &'a str)
        requires shorter { length rest.now ≤ length self.old.rest.now }
        requires few { self.old.offset + length self.old.rest.now < 2 ^ 64 }
        ensures rest { self.new.rest.now ≡ rest.now }
        ensures offset { self.new.offset + length rest.now
            ≡ self.old.offset + length self.old.rest.now }
        ensures place { self.new.place ≡ self.old.place }
    {
        self.offset += self.rest.len() - rest.len();
        self.rest = rest;
    }
}

/// Returns what follows the slash before a node, if one is where it has to be.
fn after_slash(text: &str, place: Place) -> Option<&str>
    ensures some { IfSome result (λ start. FollowsSlash place text.now start.now) }
    ensures none { IfNone result ((slash : List ℕ) → (start : List ℕ) → IsSlash place slash
        → text.now ≢ slash ++ start) }
{
    match place {
        Place::Start => Some(text),
        Place::AfterComma => Some(after_mark(text, '/').unwrap_or(text)),
        Place::AfterNode => after_mark(text, '/'),
    }
}

/// Returns what follows a character at the start of a text.
fn after_mark(text: &str, mark: char) -> Option<&str>
    requires { mark < 128 }
    ensures some { IfSome result (λ rest. text.now ≡ mark ∷ rest.now) }
    ensures none { IfNone result ((rest : List ℕ) → text.now ≢ mark ∷ rest) }
{
    text.strip_prefix(mark)
}
