use crate::names::{Id, Quote};

/// What a step has of an earlier one, by number: `msg s.1` or `cert s.1`.
#[derive(Debug, Drop)]
pub struct Numbered {
    pub line: u32,
    pub step: Id,
    pub number: u32,
}

/// How an attacker makes a value. The number that stands first is the line of the first word.
#[derive(Debug, Drop)]
pub enum RecipeText {
    Lit(Quote),
    Tuple(Quote, Vec<RecipeText>),
    Name(u32, Id),
    Msg(Numbered),
    Cert(Numbered),
    Nonce(u32, Id),
    Field {
        line: u32,
        step: Id,
        version: u32,
        number: u32,
    },
    Pair(u32, Box<RecipeText>, Box<RecipeText>),
    Pk(u32, Box<RecipeText>),
    Vk(u32, Box<RecipeText>),
    Penc(u32, Box<RecipeText>, Box<RecipeText>),
    Aead(u32, Box<RecipeText>, Box<RecipeText>, Box<RecipeText>),
    Sign(u32, Box<RecipeText>, Box<RecipeText>),
    Mac(u32, Box<RecipeText>, Box<RecipeText>),
    Kdf(u32, Box<RecipeText>, Quote, Box<RecipeText>),
    Hash(u32, Box<RecipeText>),
    Fst(u32, Box<RecipeText>),
    Snd(u32, Box<RecipeText>),
    Pdec(u32, Box<RecipeText>, Box<RecipeText>),
    Adec(u32, Box<RecipeText>, Box<RecipeText>),
    Ad(u32, Box<RecipeText>),
    Body(u32, Box<RecipeText>),
}
