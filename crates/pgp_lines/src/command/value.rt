//! The JSON value of a line, in a flat tape. Its texts lie in the line, and it is looked into as `serde_json` looks into
//! its own.
//!
//! The tape is that of `json`, which is lent its room. It takes deeper nesting and any number, so one walk over it judges both as
//! `serde_json` does. That it stands for what `serde_json` reads of the line is proved.
ghost use Rattle.std.specs.Prelude.{◌≡◌, ◌<◌, [], ◌∷◌, length, map, None, option_map, option_and_then, is_some, MatchOption, IfNone, IfSome, OnSome};
ghost use Rattle.json.specs.Json as spec;
ghost use Rattle.json.specs.Find.{as_number as number_text, as_object, InMembers};
ghost use Rattle.json.specs.Tape.{node_token};
ghost use Rattle.json.specs.Tree.{json_tokens};
ghost use Rattle.serde_json.specs.Find.{get, as_null, as_bool, as_str};
ghost use Rattle.serde_json.specs.Read.{number_of};
ghost use Rattle.pgp_lines.specs.Shapes.{items_in};
ghost use Rattle.pgp_lines.specs.Value.{num_of, json_of, view, items_left, is_readable};

use super::number::Number;
use super::trail::{Place, Wanted};
use bumpalo::Bump;
use json::{Element, Members, Node, Tape};
use std::marker::Model;

/// How deep arrays and objects nest at most. This is the limit of `serde_json`; that of a tape is 128.
const MAX_DEPTH: usize = 127;

/// A line's tokens, which lie in an arena.
pub(super) type Tokens<'a> = Tape<'a, &'a Bump>;

/// A place in a line's tape at which a value begins. A clause sees the tokens from there on.
#[derive(Drop)]
pub(super) struct Value<'t, 'a> {
    element: Element<'t, 'a>,
    /// If the line is read for the place of its fault.
    place: Option<&'t Place<'t>>,
}

impl<'t, 'a> Model for Value<'t, 'a> {
    ghost use Rattle.std.specs.Prelude.{List};
    ghost use Rattle.json.specs.Token.{Token, tokens_code};

    ghost Value = { List Token };

    ghost coded = { tokens_code };

    ghost use Rattle.json.specs.Find.{BeginsWith};
    ghost use Rattle.pgp_lines.specs.Value.{json_of};

    ghost view = { λ v. v.element };

    ghost invariant = { λ v. BeginsWith v.element (json_of v.element) };
}

impl<'t, 'a> Value<'t, 'a> {
    /// The value of a whole line.
    pub(super) fn of(tokens: &'t Tokens<'a>, place: Option<&'t Place<'t>>) -> Value<'t, 'a>
        ensures { result ≡ tokens.now }
    {
        Value {
            element: tokens.root(),
            place,
        }
    }

    /// Says what is looked for here.
    pub(super) fn look(&self, wanted: Wanted) {
        if let Some(place) = self.place {
            place.look(wanted);
        }
    }

    /// Says what is looked for at a key.
    pub(super) fn look_at(&self, key: &'static str, wanted: Wanted) {
        if let Some(place) = self.place {
            let _there = place.look_at(key, wanted);
        }
    }

    /// The value at a key of an object; of one that stands there twice the last.
    pub(super) fn get(&self, key: &'static str) -> Option<Value<'t, 'a>>
        ensures { option_map view result ≡ get key.now (view self.now) }
    {
        let place = self
            .place
            .and_then(|place| place.look_at(key, Wanted::Value));
        let element = self.element.get(key)?;
        Some(Value { element, place })
    }

    pub(super) fn as_str(&self) -> Option<&'a str>
        ensures { option_map (λ s. s.now) result ≡ as_str (view self.now) }
    {
        self.look(Wanted::Words("a text that it can be"));
        self.element.as_str()
    }

    /// The items of an array.
    pub(super) fn items(&self) -> Option<Items<'t, 'a>>
        ensures { option_map items_left result ≡ items_in (view self.now) }
    {
        self.look(Wanted::Words("a list"));
        let items = self.element.items()?;
        Some(Items {
            items,
            place: self.place,
            taken: 0,
        })
    }

    /// The members of an object, in the line's order.
    pub(super) fn members(&self) -> Option<Members<'t, 'a>>
        ensures { MatchOption result (as_object (json_of self.now) ≡ None)
            (λ rest. (ms : spec.Members) × (json_of self.now ≡ spec.object ms) × InMembers rest ms) }
    {
        self.element.members()
    }

    pub(super) fn as_bool(&self) -> Option<bool>
        ensures { result ≡ as_bool (view self.now) }
    {
        self.look(Wanted::Words("true or false"));
        self.element.as_bool()
    }

    pub(super) fn is_null(&self) -> bool
        ensures { result ≡ is_some (as_null (view self.now)) }
    {
        self.element.is_null()
    }

    /// The number, where it is one in range.
    pub(super) fn number(&self) -> Option<Number>
        ensures { option_map num_of result
            ≡ option_and_then number_of (number_text (json_of self.now)) }
    {
        Number::parse(self.element.as_number()?)
    }
}

/// The items of an array that are still to come. A clause sees the tokens from the next item on.
#[derive(Drop)]
pub(super) struct Items<'t, 'a> {
    items: json::Items<'t, 'a>,
    /// That of the array.
    place: Option<&'t Place<'t>>,
    /// How many have come.
    taken: usize,
}

impl<'t, 'a> Model for Items<'t, 'a> {
    ghost use Rattle.std.specs.Prelude.{List};
    ghost use Rattle.json.specs.Token.{Token, tokens_code};

    ghost Value = { List Token };

    ghost coded = { tokens_code };

    ghost use Rattle.pgp_lines.specs.Value.{HasItems};

    ghost view = { λ i. i.items };

    ghost invariant = { λ i. HasItems i.items };
}

impl<'t, 'a> Items<'t, 'a> {
    #[inline]
    pub(super) fn next(&mut self) -> Option<Value<'t, 'a>>
        ensures end { IfNone result (items_left self.old ≡ []) }
        ensures more { IfSome result (λ v. items_left self.old ≡ view v ∷ items_left self.new) }
        ensures shorter { OnSome result (length self.new < length self.old) }
    {
        let place = self.place.and_then(|place| place.look_for_item(self.taken));
        let element = self.items.next()?;
        self.taken = self.taken.saturating_add(1);
        Some(Value { element, place })
    }
}

/// Whether `serde_json` reads these tokens too: arrays and objects nest at most 127 deep, and each number is a whole
/// one of 64 bits or a finite float.
pub(super) fn is_readable(tokens: &[Node<'_>]) -> bool
    ensures { (j : spec.Json) → map node_token tokens.now ≡ json_tokens j → result ≡ is_readable j }
{
    let mut depth = 0;
    for token in tokens {
        match *token {
            Node::Array(_) | Node::Object(_) => {
                if depth >= MAX_DEPTH {
                    return false;
                }
                depth += 1;
            }
            // The brackets of a tape match, so this never saturates.
            Node::EndArray | Node::EndObject => depth = depth.saturating_sub(1),
            Node::Number(text) => {
                if Number::parse(text).is_none() {
                    return false;
                }
            }
            Node::Key(_) | Node::String(_) | Node::Bool(_) | Node::Null => {}
        }
    }
    true
}
