// The instruction reader, its answer as numbers.
ghost use Rattle.std.specs.Prelude.{◌≡◌};
ghost use Rattle.capi_codec.specs.Decoding.{decoded_reply, instruction_reply, unread_reply, decode_reply, HwsqDecode};

use isa::Instruction;
use refusals::Unreadable;

#[repr(C)]
#[derive(Clone, Copy, Default)]
pub struct DecodeReply {
    // 0, or why there is no instruction
    pub refusal: u8,
    // 1 to 10, and 0 where there is none
    pub kind: u8,
    pub first: u32,
    pub second: u8,
    // how many bytes the instruction takes
    pub length: usize,
}

// The instruction at the start of bytes.
#[unsafe(no_mangle)]
pub extern "C" fn hwsq_decode(family: u8, bytes: &[u8]) -> DecodeReply
    ensures { HwsqDecode family bytes.now result }
{
    DecodeReply::from(isa_reader::decode(family, bytes))
}

impl From<Result<(Instruction, usize), Unreadable>> for DecodeReply {
    fn from(found: Result<(Instruction, usize), Unreadable>) -> DecodeReply
        ensures { result ≡ decode_reply found }
    {
        match found {
            Ok((instruction, length)) => instruction_reply(instruction, length),
            Err(why) => unread(u8::from(why)),
        }
    }
}

fn unread(refusal: u8) -> DecodeReply
    ensures { result ≡ unread_reply refusal }
{
    DecodeReply {
        refusal,
        ..DecodeReply::default()
    }
}

fn read_word(kind: u8, word: u32, length: usize) -> DecodeReply
    ensures { result ≡ decoded_reply kind word 0 length }
{
    DecodeReply {
        refusal: 0,
        kind,
        first: word,
        second: 0,
        length,
    }
}

fn read_half(kind: u8, half: u16, length: usize) -> DecodeReply
    ensures { result ≡ decoded_reply kind half 0 length }
{
    read_word(kind, half as u32, length)
}

fn read_bytes(kind: u8, first: u8, second: u8, length: usize) -> DecodeReply
    ensures { result ≡ decoded_reply kind first second length }
{
    DecodeReply {
        refusal: 0,
        kind,
        first: first as u32,
        second,
        length,
    }
}

fn instruction_reply(instruction: Instruction, n: usize) -> DecodeReply
    ensures { result ≡ instruction_reply instruction n }
{
    match instruction {
        Instruction::Wait { length, shift } => read_bytes(1, length, shift, n),
        Instruction::AddrLo(low) => read_half(2, low, n),
        Instruction::DataLo(low) => read_half(3, low, n),
        Instruction::Ewait { event, value } => read_bytes(4, event, value, n),
        Instruction::Exit => read_bytes(5, 0, 0, n),
        Instruction::Unset(flag) => read_bytes(6, flag, 0, n),
        Instruction::Set1(flag) => read_bytes(7, flag, 0, n),
        Instruction::Set0(flag) => read_bytes(8, flag, 0, n),
        Instruction::Addr(address) => read_word(9, address.0, n),
        Instruction::Data(word) => read_word(10, word, n),
    }
}
