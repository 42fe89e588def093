// A payload read with one cursor: an item of each kind, one after another.
ghost use Rattle.xdr.specs.Each.{Each};

use crate::xdr::{Part, XdrCursor};
use wire::error::Level3DecodeError;

// An item's answer, and the position where it ended.
#[derive(Clone, Copy)]
pub struct Ended<T> {
    pub answer: Result<T, Level3DecodeError>,
    pub at: usize,
}

#[derive(Clone, Copy)]
pub struct Items {
    pub int: Ended<i32>,
    pub uint: Ended<u32>,
    pub float: Ended<f32>,
    pub string: Ended<Part>,
    pub array: Ended<Part>,
    pub head: Ended<usize>,
    pub list: Ended<()>,
    pub left: usize,
}

// Each item from where the one before it ended, after a refusal too; last the number of bytes that are left.
pub fn read_each(payload: &[u8]) -> Items
    ensures { Each payload.now result }
{
    let mut c = XdrCursor::new(payload);
    let answer = c.unpack_int();
    let int = Ended {
        answer,
        at: c.position(),
    };
    let answer = c.unpack_uint();
    let uint = Ended {
        answer,
        at: c.position(),
    };
    let answer = c.unpack_float();
    let float = Ended {
        answer,
        at: c.position(),
    };
    let answer = c.unpack_string();
    let string = Ended {
        answer,
        at: c.position(),
    };
    let answer = c.unpack_int_array();
    let array = Ended {
        answer,
        at: c.position(),
    };
    let answer = c.list_head();
    let head = Ended {
        answer,
        at: c.position(),
    };
    let answer = c.skip_parameters();
    let list = Ended {
        answer,
        at: c.position(),
    };
    Items {
        int,
        uint,
        float,
        string,
        array,
        head,
        list,
        left: c.bytes_remaining(),
    }
}
