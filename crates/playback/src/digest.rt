// Digests: 7 at first, and for each byte (digest * 257 + byte + 1) modulo a number below 2^55.
ghost use Rattle.std.specs.Prelude.{◌<◌};

use state::session::Session;

const MODULUS: u64 = 36028797018963913;

#[derive(Clone, Copy)]
pub struct Digest {
    value: u64,
    ghost below: { value < 36028797018963913 },
}

impl Digest {
    fn byte(self, byte: u8) -> Digest {
        Digest {
            value: (self.value * 257 + u64::from(byte) + 1) % MODULUS,
        }
    }

    // The two bytes of a number, the lower first.
    fn half(self, number: u16) -> Digest {
        let [low, high] = number.to_le_bytes();
        self.byte(low).byte(high)
    }

    // Its four.
    fn number(self, number: u32) -> Digest {
        let [first, second, third, fourth] = number.to_le_bytes();
        self.byte(first).byte(second).byte(third).byte(fourth)
    }

    fn signed(self, number: i32) -> Digest {
        self.number(number.cast_unsigned())
    }
}

const START: Digest = Digest { value: 7 };

pub fn of_bytes(buffer: &[u8]) -> u64 {
    let digest = buffer.iter().fold(START, |digest, x| digest.byte(*x));
    digest.value
}

pub fn of_plane(buffer: &[u16]) -> u64 {
    let digest = buffer.iter().fold(START, |digest, x| digest.half(*x));
    digest.value
}

pub fn of_grid(buffer: &[i32]) -> u64 {
    let digest = buffer.iter().fold(START, |digest, x| digest.signed(*x));
    digest.value
}

pub fn of_answers(buffer: &[u32]) -> u64 {
    let digest = buffer.iter().fold(START, |digest, x| digest.number(*x));
    digest.value
}

// The session's 24 fields.
pub fn of_session(s: Session) -> u64 {
    let fields = [
        s.shape.flags,
        s.shape.block_w,
        s.shape.block_h,
        s.shape.pel,
        s.shape.width,
        s.shape.height,
        s.shape.overlap_x,
        s.shape.overlap_y,
        s.shape.grid_w,
        s.shape.grid_h,
        s.shape.selector,
        s.side.cast_signed(),
        s.limits.blocks,
        s.limits.zero,
        s.limits.m1,
        s.limits.m2,
        s.limits.scene,
        s.time,
        s.past.cast_signed(),
        s.future.cast_signed(),
        s.kept.counted.cast_signed(),
        s.kept.scene.cast_signed(),
        s.kept.m2.cast_signed(),
        s.kept.m1.cast_signed(),
    ];
    of_grid(&fields)
}
