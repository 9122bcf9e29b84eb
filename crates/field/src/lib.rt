// GF(256): product, quotient, inverse, logarithm and power (ECMA-268, 16.2 and clause 18; document 01, 'The block'), over a table of logarithms that is made once and lent.
#![tactic(auto)]

ghost use Rattle.std.specs.Prelude.{◌≡◌, ◌<◌};
ghost use Rattle.field.specs.Field.{mul, pow, inverse};
ghost use Rattle.field.specs.Inner.{LogTable};

// The logarithms and powers of α.
#[derive(Clone, Copy)]
pub struct Logs {
    pub table: [u8; 768],
    pub ghost sound: { LogTable table },
}

impl Logs {
    pub fn new() -> Logs {
        Logs { table: TABLE }
    }

    // The product of two elements.
    pub fn product(&self, a: u8, b: u8) -> u8
        ensures { result ≡ mul a b }
    {
        if a == 0 || b == 0 {
            return 0;
        }
        let i = usize::from(self.table[usize::from(a)]);
        let j = usize::from(self.table[usize::from(b)]);
        self.table[256 + (i + j)]
    }

    // α^k.
    pub fn alpha_power(&self, k: u8) -> u8
        ensures { result ≡ pow 2 k }
    {
        self.table[256 + usize::from(k)]
    }

    // The inverse of an element, and 0 for 0.
    pub fn inverse(&self, a: u8) -> u8
        ensures { result ≡ inverse a }
    {
        if a == 0 {
            return 0;
        }
        let i = usize::from(self.table[usize::from(a)]);
        self.table[256 + (255 - i)]
    }

    // a over b: a times the inverse of b.
    pub fn quotient(&self, a: u8, b: u8) -> u8
        ensures { result ≡ mul a (inverse b) }
    {
        self.product(a, self.inverse(b))
    }

    // The logarithm of an element a other than 0: the one exponent k below 255 for which α^k is a.
    pub fn logarithm(&self, a: u8) -> u8
        requires { 0 < a }
        ensures result_value { pow 2 result ≡ a }
        ensures upper_bound { result < 255 }
    {
        self.table[usize::from(a)]
    }

    // a to the power n, along the bits of n from the lowest on: where the bit is one the base is multiplied in, and for the next bit it is squared. At the head of
    // each turn
    //     accumulator × base^left = a^n,
    // left being what is left of n. With no bit left base^0 is 1, and the accumulator is the power.
    pub fn power(&self, a: u8, n: u64) -> u8
        ensures { result ≡ pow a n }
    {
        let mut accumulator: u8 = 1;
        let mut base: u8 = a;
        let mut left: u64 = n;
        while 0 < left {
            if left % 2 == 1 {
                accumulator = self.product(accumulator, base);
            }
            base = self.product(base, base);
            left /= 2;
        }
        accumulator
    }
}

// Entry a is the logarithm of a to the base α (0 has none: entry 0 is 0); entry 256 + i is α^i, i up to 511. In hexadecimal: entry 0, and α^8.
const TABLE: [u8; 768] = [
    0x00, 0, 1, 25, 2, 50, 26, 198, 3, 223, 51, 238, 27, 104, 199, 75, 4, 100, 224, 14, 52, 141,
    239, 129, 28, 193, 105, 248, 200, 8, 76, 113, 5, 138, 101, 47, 225, 36, 15, 33, 53, 147, 142,
    218, 240, 18, 130, 69, 29, 181, 194, 125, 106, 39, 249, 185, 201, 154, 9, 120, 77, 228, 114,
    166, 6, 191, 139, 98, 102, 221, 48, 253, 226, 152, 37, 179, 16, 145, 34, 136, 54, 208, 148,
    206, 143, 150, 219, 189, 241, 210, 19, 92, 131, 56, 70, 64, 30, 66, 182, 163, 195, 72, 126,
    110, 107, 58, 40, 84, 250, 133, 186, 61, 202, 94, 155, 159, 10, 21, 121, 43, 78, 212, 229, 172,
    115, 243, 167, 87, 7, 112, 192, 247, 140, 128, 99, 13, 103, 74, 222, 237, 49, 197, 254, 24,
    227, 165, 153, 119, 38, 184, 180, 124, 17, 68, 146, 217, 35, 32, 137, 46, 55, 63, 209, 91, 149,
    188, 207, 205, 144, 135, 151, 178, 220, 252, 190, 97, 242, 86, 211, 171, 20, 42, 93, 158, 132,
    60, 57, 83, 71, 109, 65, 162, 31, 45, 67, 216, 183, 123, 164, 118, 196, 23, 73, 236, 127, 12,
    111, 246, 108, 161, 59, 82, 41, 157, 85, 170, 251, 96, 134, 177, 187, 204, 62, 90, 203, 89, 95,
    176, 156, 169, 160, 81, 11, 245, 22, 235, 122, 117, 44, 215, 79, 174, 213, 233, 230, 231, 173,
    232, 116, 214, 244, 234, 168, 80, 88, 175, 1, 2, 4, 8, 16, 32, 64, 128, 0x1D, 58, 116, 232,
    205, 135, 19, 38, 76, 152, 45, 90, 180, 117, 234, 201, 143, 3, 6, 12, 24, 48, 96, 192, 157, 39,
    78, 156, 37, 74, 148, 53, 106, 212, 181, 119, 238, 193, 159, 35, 70, 140, 5, 10, 20, 40, 80,
    160, 93, 186, 105, 210, 185, 111, 222, 161, 95, 190, 97, 194, 153, 47, 94, 188, 101, 202, 137,
    15, 30, 60, 120, 240, 253, 231, 211, 187, 107, 214, 177, 127, 254, 225, 223, 163, 91, 182, 113,
    226, 217, 175, 67, 134, 17, 34, 68, 136, 13, 26, 52, 104, 208, 189, 103, 206, 129, 31, 62, 124,
    248, 237, 199, 147, 59, 118, 236, 197, 151, 51, 102, 204, 133, 23, 46, 92, 184, 109, 218, 169,
    79, 158, 33, 66, 132, 21, 42, 84, 168, 77, 154, 41, 82, 164, 85, 170, 73, 146, 57, 114, 228,
    213, 183, 115, 230, 209, 191, 99, 198, 145, 63, 126, 252, 229, 215, 179, 123, 246, 241, 255,
    227, 219, 171, 75, 150, 49, 98, 196, 149, 55, 110, 220, 165, 87, 174, 65, 130, 25, 50, 100,
    200, 141, 7, 14, 28, 56, 112, 224, 221, 167, 83, 166, 81, 162, 89, 178, 121, 242, 249, 239,
    195, 155, 43, 86, 172, 69, 138, 9, 18, 36, 72, 144, 61, 122, 244, 245, 247, 243, 251, 235, 203,
    139, 11, 22, 44, 88, 176, 125, 250, 233, 207, 131, 27, 54, 108, 216, 173, 71, 142, 1, 2, 4, 8,
    16, 32, 64, 128, 29, 58, 116, 232, 205, 135, 19, 38, 76, 152, 45, 90, 180, 117, 234, 201, 143,
    3, 6, 12, 24, 48, 96, 192, 157, 39, 78, 156, 37, 74, 148, 53, 106, 212, 181, 119, 238, 193,
    159, 35, 70, 140, 5, 10, 20, 40, 80, 160, 93, 186, 105, 210, 185, 111, 222, 161, 95, 190, 97,
    194, 153, 47, 94, 188, 101, 202, 137, 15, 30, 60, 120, 240, 253, 231, 211, 187, 107, 214, 177,
    127, 254, 225, 223, 163, 91, 182, 113, 226, 217, 175, 67, 134, 17, 34, 68, 136, 13, 26, 52,
    104, 208, 189, 103, 206, 129, 31, 62, 124, 248, 237, 199, 147, 59, 118, 236, 197, 151, 51, 102,
    204, 133, 23, 46, 92, 184, 109, 218, 169, 79, 158, 33, 66, 132, 21, 42, 84, 168, 77, 154, 41,
    82, 164, 85, 170, 73, 146, 57, 114, 228, 213, 183, 115, 230, 209, 191, 99, 198, 145, 63, 126,
    252, 229, 215, 179, 123, 246, 241, 255, 227, 219, 171, 75, 150, 49, 98, 196, 149, 55, 110, 220,
    165, 87, 174, 65, 130, 25, 50, 100, 200, 141, 7, 14, 28, 56, 112, 224, 221, 167, 83, 166, 81,
    162, 89, 178, 121, 242, 249, 239, 195, 155, 43, 86, 172, 69, 138, 9, 18, 36, 72, 144, 61, 122,
    244, 245, 247, 243, 251, 235, 203, 139, 11, 22, 44, 88, 176, 125, 250, 233, 207, 131, 27, 54,
    108, 216, 173, 71, 142, 1, 2,
];
