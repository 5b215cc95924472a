// What the program was told on its command line.
use anyhow::{Context, anyhow};
use image_reader::choice::JudgeChoice;
use std::alloc::Global;
use std::env;

// `--image FILE`, `--judge texts|gauge|either`, `--mount MODULE`, `--bare`.
#[derive(Drop)]
pub struct Options {
    pub image: Option<String>,
    pub judge: JudgeChoice,
    pub mount: Option<u16>,
    pub bare: bool,
}

impl Options {
    // Takes an option that wants a value, with its value if there is one.
    fn take(&mut self, name: &str, value: Option<String>) -> anyhow::Result<()> {
        let value = value.context("an option wants a value behind it")?;
        match name {
            "--image" => self.image = Some(value),
            "--judge" => self.judge = JudgeChoice::named(value.as_str().as_bytes()).context(
                "--judge takes texts, gauge or either",
            )?,
            "--mount" => self.mount = Some(value.as_str().parse::<u16>()?),
            _ => return Err(anyhow!(
                "options: --image FILE, --judge texts|gauge|either, --mount MODULE, --bare"
            )),
        }
        Ok(())
    }

    // Reads the command line.
    pub fn read(rt: &HostRuntime) -> anyhow::Result<Options> {
        let mut options = Options {
            image: None,
            judge: JudgeChoice::Either,
            mount: None,
            bare: false,
        };
        let mut arguments = env::args(rt)?;
        let _program = arguments.next();
        while let Some(name) = arguments.next() {
            match name.as_str() {
                "--bare" => options.bare = true,
                name => options.take(name, arguments.next())?,
            }
        }
        Ok(options)
    }
}
