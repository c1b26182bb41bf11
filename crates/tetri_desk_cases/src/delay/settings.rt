// The settings of a section.
use std::alloc::{AllocError, Global};
use tetri_delay::Density;

/// What a section sets; what it leaves out is none, 0, or an effort of 50.
#[derive(Drop)]
pub struct Settings {
    pub at: u32,
    pub density: Option<Density>,
    pub ageing: Option<u32>,
    pub keeps_promise: bool,
    pub effort: u32,
    pub first: Vec<u32>,
    pub held: Vec<bool>,
}

// A number, and 0 for what is none.
fn number(text: &str) -> u32 {
    text.parse::<u32>().unwrap_or(0)
}

fn large_number(text: &str) -> u64 {
    text.parse::<u64>().unwrap_or(0)
}

fn density_in(text: &str) -> Density {
    let (worth, node_slots) = text.split_once('/').unwrap_or((text, "1"));
    Density {
        worth: large_number(worth).min(100_000_000_000_000_000),
        node_slots: large_number(node_slots),
    }
}

impl Settings {
    fn new(alloc: Global) -> Settings {
        Settings {
            at: 0,
            density: None,
            ageing: None,
            keeps_promise: false,
            effort: 50,
            first: Vec::new(alloc),
            held: Vec::new(alloc),
        }
    }

    fn set_first(&mut self, words: &str) -> Result<(), AllocError> {
        for word in words.split(' ') {
            self.first.push(number(word))?;
        }
        Ok(())
    }

    fn set_held(&mut self, words: &str) -> Result<(), AllocError> {
        for word in words.split(' ') {
            self.held.push(word == "1")?;
        }
        Ok(())
    }

    fn set(&mut self, key: &str, rest: &str) -> Result<(), AllocError> {
        match key {
            "at" => self.at = number(rest),
            "density" => self.density = Some(density_in(rest)),
            "ageing" => self.ageing = Some(number(rest)),
            "promise" => self.keeps_promise = true,
            "effort" => self.effort = number(rest),
            "first" => self.set_first(rest)?,
            "held" => self.set_held(rest)?,
            _ => {}
        }
        Ok(())
    }
}

/// The settings that words say, with `, ` between them.
pub fn settings_of(alloc: Global, words: &str) -> Result<Settings, AllocError> {
    let mut settings = Settings::new(alloc);
    for word in words.split(", ") {
        let (key, rest) = word.split_once(' ').unwrap_or((word, ""));
        settings.set(key, rest)?;
    }
    Ok(settings)
}
