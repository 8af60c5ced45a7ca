// How a header is written: every value field by field.
ghost use Rattle.header.specs.Headers.{record_of};
ghost use Rattle.headerdump.specs.Texts.{byte_text, digits_text, core_text, options_text, header_text};
ghost use Rattle.std.specs.Prelude.{Some};

use header::kinds::Header;
use hexpairs::dashes::OrDash;
use std::fmt;

// A byte as two hexadecimal digits, A to F in upper case.
#[derive(Drop)]
struct Byte(u8);

impl fmt::Display for Byte {
    ghost output = { λ b. Some (byte_text b.0) };

    #[tactic(auto, using(std::proofs::lemmas::Fmt::hex_byte))]
    fn fmt<W: fmt::Write>(&self, f: &mut fmt::Formatter<W>) -> fmt::Result {
        let byte = self.0;
        write!(f, "{byte:02X}")
    }
}

// Bytes in hexadecimal.
#[derive(Drop)]
struct Digits<'a>(&'a [u8]);

impl fmt::Display for Digits<'_> {
    ghost output = { λ d. Some (digits_text d.0.now) };

    fn fmt<W: fmt::Write>(&self, f: &mut fmt::Formatter<W>) -> fmt::Result {
        for b in self.0 {
            write!(f, "{}", Byte(*b))?;
        }
        Ok(())
    }
}

// What a header's core says.
#[derive(Drop)]
struct CoreValues<'a>(Header<'a>);

impl fmt::Display for CoreValues<'_> {
    ghost output = { λ v. Some (core_text (record_of v.0)) };

    #[tactic(auto, unfolding(crate::specs::Texts::core_text))]
    fn fmt<W: fmt::Write>(&self, f: &mut fmt::Formatter<W>) -> fmt::Result {
        let Header {
            kind,
            body_size,
            header_size,
            content_type,
            subtype,
            ..
        } = self.0;
        write!(f, "{kind} body={body_size} header={header_size}")?;
        write!(f, " type={content_type} subtype={subtype}")
    }
}

// What a header may lack: a dash stands for it then.
#[derive(Drop)]
struct Options<'a>(Header<'a>);

impl fmt::Display for Options<'_> {
    ghost output = { λ v. Some (options_text (record_of v.0)) };

    #[tactic(auto, unfolding(crate::specs::Texts::options_text))]
    fn fmt<W: fmt::Write>(&self, f: &mut fmt::Formatter<W>) -> fmt::Result {
        write!(
            f,
            " version={} expire={}",
            OrDash(self.0.version),
            OrDash(self.0.expire)
        )?;
        write!(
            f,
            " trigger={} category={}",
            OrDash(self.0.trigger),
            OrDash(self.0.category)
        )
    }
}

// The values of a header.
#[derive(Drop)]
pub struct Values<'a>(pub Header<'a>);

impl fmt::Display for Values<'_> {
    ghost output = { λ v. Some (header_text (record_of v.0)) };

    fn fmt<W: fmt::Write>(&self, f: &mut fmt::Formatter<W>) -> fmt::Result {
        let name = self.0.name;
        write!(f, "{}", CoreValues(self.0))?;
        write!(f, " charset={} name={}", name.charset, Digits(name.bytes))?;
        write!(f, "{}", Options(self.0))
    }
}
