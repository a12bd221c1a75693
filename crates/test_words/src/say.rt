//! The words of an answer, said.

use crate::trouble::Trouble;
use simplex_types::PlainKey;
use std::alloc::Global;
use types_core::{
    Attestation, CodecError, Context, Digest, Participant, Proposal, Round, Sha256Digest,
    Signature, View, Write,
};

/// A text of more bytes is told by its length and its sum.
const LONGEST_TEXT: usize = 1_000;

/// The line that answers a call.
#[derive(Drop)]
pub struct Say {
    /// Where memory comes from.
    pub alloc: Global,
    line: String,
}

impl Say {
    /// A line with nothing on it.
    pub fn new(alloc: Global) -> Self {
        Say {
            alloc,
            line: String::new(alloc),
        }
    }

    /// What was said.
    pub fn line(&self) -> &str {
        self.line.as_str()
    }

    /// Takes back all that was said.
    pub fn clear(&mut self) {
        self.line.clear();
    }

    /// Text as it is.
    pub fn text(&mut self, text: &str) -> Result<(), Trouble> {
        self.line.push_str(text)?;
        Ok(())
    }

    /// Bytes as a text in quotes with `\n` for each newline; as hexadecimal digits where they are no text.
    pub fn quoted(&mut self, bytes: &[u8]) -> Result<(), Trouble> {
        if bytes.len() > LONGEST_TEXT {
            return self.sum_of(bytes);
        }
        let Ok(text) = str::from_utf8(bytes) else {
            return self.bytes(bytes);
        };
        let mut line = String::new(self.alloc);
        for sign in text.chars() {
            match sign {
                '\n' => line.push_str("\\n")?,
                _ => line.push(sign)?,
            }
        }
        self.text("\"")?;
        self.text(&line)?;
        self.text("\"")
    }

    /// What stands between two words.
    pub fn gap(&mut self) -> Result<(), Trouble> {
        self.text(" ")
    }

    /// Nothing, where something could be.
    pub fn none(&mut self) -> Result<(), Trouble> {
        self.text("-")
    }

    /// That a call was made that answers nothing.
    pub fn ok(&mut self) -> Result<(), Trouble> {
        self.text("ok")
    }

    /// A number.
    pub fn number(&mut self, number: u64) -> Result<(), Trouble> {
        write!(self.line, "{number}")?;
        Ok(())
    }

    /// A number, or `-`.
    pub fn optional(&mut self, number: Option<u64>) -> Result<(), Trouble> {
        match number {
            Some(number) => self.number(number),
            None => self.none(),
        }
    }

    /// `true` or `false`.
    pub fn truth(&mut self, truth: bool) -> Result<(), Trouble> {
        self.text(if truth { "true" } else { "false" })
    }

    /// Numbers with a comma between two, or `-`.
    pub fn numbers(&mut self, numbers: &[u64]) -> Result<(), Trouble> {
        let Some((first, rest)) = numbers.split_first() else {
            return self.none();
        };
        self.number(*first)?;
        for number in rest {
            self.text(",")?;
            self.number(*number)?;
        }
        Ok(())
    }

    /// A member's index.
    pub fn member(&mut self, member: Participant) -> Result<(), Trouble> {
        self.number(u64::from(member.get()))
    }

    /// Indices of members with a comma between two, or `-`.
    pub fn members(&mut self, members: &[Participant]) -> Result<(), Trouble> {
        let Some((first, rest)) = members.split_first() else {
            return self.none();
        };
        self.member(*first)?;
        for member in rest {
            self.text(",")?;
            self.member(*member)?;
        }
        Ok(())
    }

    /// The index of the member whose key it is.
    pub fn key(&mut self, key: &PlainKey) -> Result<(), Trouble> {
        self.member(key.index())
    }

    /// The same, or `-`.
    pub fn key_or(&mut self, key: Option<PlainKey>) -> Result<(), Trouble> {
        match key {
            Some(key) => self.key(&key),
            None => self.none(),
        }
    }

    /// A view.
    pub fn view(&mut self, view: View) -> Result<(), Trouble> {
        self.number(view.get())
    }

    /// `EPOCH VIEW`.
    pub fn round(&mut self, round: &Round) -> Result<(), Trouble> {
        self.number(round.epoch.get())?;
        self.gap()?;
        self.view(round.view)
    }

    /// The byte of which all bytes of the payload are.
    pub fn payload(&mut self, payload: &Sha256Digest) -> Result<(), Trouble> {
        let bytes = payload.as_bytes();
        let Some(first) = bytes.first() else {
            return self.none();
        };
        for byte in bytes {
            if byte != first {
                return self.bytes(bytes);
            }
        }
        self.number(u64::from(*first))
    }

    /// The same, or `-`.
    pub fn payload_or(&mut self, payload: Option<Sha256Digest>) -> Result<(), Trouble> {
        match payload {
            Some(payload) => self.payload(&payload),
            None => self.none(),
        }
    }

    /// `EPOCH VIEW PARENT K`.
    pub fn proposal(&mut self, proposal: &Proposal<Sha256Digest>) -> Result<(), Trouble> {
        self.round(&proposal.round)?;
        self.gap()?;
        self.view(proposal.parent)?;
        self.gap()?;
        self.payload(&proposal.payload)
    }

    /// The same, or `-`.
    pub fn proposal_or(&mut self, proposal: Option<Proposal<Sha256Digest>>) -> Result<(), Trouble> {
        match proposal {
            Some(proposal) => self.proposal(&proposal),
            None => self.none(),
        }
    }

    /// `EPOCH VIEW KEY PARENT_VIEW PARENT_K`.
    pub fn context(&mut self, context: &Context<Sha256Digest, PlainKey>) -> Result<(), Trouble> {
        self.round(&context.round)?;
        self.gap()?;
        self.key(&context.leader)?;
        self.gap()?;
        self.view(context.parent.0)?;
        self.gap()?;
        self.payload(&context.parent.1)
    }

    /// Bytes as pairs of hexadecimal digits, or `-`.
    pub fn bytes(&mut self, bytes: &[u8]) -> Result<(), Trouble> {
        if bytes.is_empty() {
            return self.none();
        }
        let digits = hex::encode(self.alloc, bytes)?;
        self.text(&digits)
    }

    /// The bytes that spell a value, so.
    pub fn value<T: Write>(&mut self, value: &T) -> Result<(), Trouble> {
        let mut bytes = Vec::new(self.alloc);
        value.write(&mut bytes)?;
        self.bytes(&bytes)
    }

    /// Why no value was read from bytes.
    pub fn fault(&mut self, error: CodecError) -> Result<(), Trouble> {
        match error {
            CodecError::End => self.text("End"),
            CodecError::Invalid => self.text("Invalid"),
            CodecError::TooLong => self.text("TooLong"),
            CodecError::Memory => Err(Trouble::Memory),
        }
    }

    /// How many bytes they are, and their sum.
    pub fn sum_of(&mut self, bytes: &[u8]) -> Result<(), Trouble> {
        self.number(bytes.len() as u64)?;
        self.gap()?;
        self.number(sum_behind(0, bytes))
    }

    /// The signer, and the sum of the signature.
    pub fn attestation<G: Signature>(
        &mut self,
        attestation: &Attestation<G>,
    ) -> Result<(), Trouble> {
        self.member(attestation.signer)?;
        self.gap()?;
        let sum = self.sum_with(0, &attestation.signature)?;
        self.number(sum)
    }

    /// The signers, and the sum of all signatures in their order.
    pub fn attestations<G: Signature>(
        &mut self,
        attestations: &[Attestation<G>],
    ) -> Result<(), Trouble> {
        self.signers(attestations)?;
        self.gap()?;
        let mut sum = 0;
        for attestation in attestations {
            sum = self.sum_with(sum, &attestation.signature)?;
        }
        self.number(sum)
    }

    fn signers<G: Signature>(&mut self, attestations: &[Attestation<G>]) -> Result<(), Trouble> {
        let Some((first, rest)) = attestations.split_first() else {
            return self.none();
        };
        self.member(first.signer)?;
        for attestation in rest {
            self.text(",")?;
            self.member(attestation.signer)?;
        }
        Ok(())
    }

    /// The sum, with the signature's bytes behind.
    fn sum_with<G: Signature>(&self, sum: u64, signature: &G) -> Result<u64, Trouble> {
        let mut bytes = Vec::new(self.alloc);
        signature.write(&mut bytes)?;
        Ok(sum_behind(sum, &bytes))
    }
}

/// The sum, with these bytes behind.
fn sum_behind(before: u64, bytes: &[u8]) -> u64 {
    let mut sum = before;
    for byte in bytes {
        sum = ((sum % MODULUS) * 31 + u64::from(*byte)) % MODULUS;
    }
    sum
}

/// What sums of bytes stay below.
const MODULUS: u64 = 65_521;
