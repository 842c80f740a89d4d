//! The tokens that a channel knows.

ghost use Rattle.std.specs.Prelude.{◌≡◌, ◌∷◌, ◌==◌, length};
ghost use Rattle.ua_channel.specs.ClientChannel.{first_token};
ghost use Rattle.ua_channel.specs.Token.{newest_id, is_usable, two_newest};
ghost use Rattle.ua_channel.specs.Newest.{tokens_of};

use crate::token::Token;

/// The newest token of a channel and the one before it, as far as there are.
#[derive(Clone, Copy, Debug, PartialEq, Eq)]
pub(crate) enum Newest {
    None,
    One(Token),
    Two(Token, Token),
}

impl Newest {
    pub(crate) fn is_none(self) -> bool
        ensures { result ≡ (length (tokens_of self) == 0) }
    {
        matches!(self, Newest::None)
    }

    /// The id of the newest token, 0 without one.
    pub(crate) fn newest_id(self) -> u32
        ensures { result ≡ newest_id (tokens_of self) }
    {
        match self {
            Newest::None => 0,
            Newest::One(newest) | Newest::Two(newest, _) => newest.id,
        }
    }

    pub(crate) fn newest(self) -> Option<Token>
        ensures { result ≡ first_token (tokens_of self) }
    {
        match self {
            Newest::None => None,
            Newest::One(newest) | Newest::Two(newest, _) => Some(newest),
        }
    }

    /// The tokens with one more, which is the newest then.
    pub(crate) fn followed_by(self, token: Token) -> Newest
        ensures { tokens_of result ≡ two_newest (token ∷ tokens_of self) }
    {
        match self {
            Newest::None => Newest::One(token),
            Newest::One(before) | Newest::Two(before, _) => Newest::Two(token, before),
        }
    }

    /// Whether the token of that id is known, and alive at the moment.
    pub(crate) fn is_usable(self, id: u32, now: u64) -> bool
        ensures { result ≡ is_usable (tokens_of self) id now }
    {
        match self {
            Newest::None => false,
            Newest::One(newest) => newest.id == id && newest.is_alive(now),
            Newest::Two(newest, before) => {
                if newest.id == id {
                    newest.is_alive(now)
                } else {
                    before.id == id && before.is_alive(now)
                }
            }
        }
    }
}
