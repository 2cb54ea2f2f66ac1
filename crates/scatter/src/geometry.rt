// What a scatter of a shape at a time works out once, and its leaf: the four cells of a block and its four products, as arrays by value
// (paper 01, 'Scatter').
ghost use Rattle.std.specs.Prelude.{◌≡◌, ◌<◌};
ghost use Rattle.record.specs.Refusals.{number_of};
ghost use Rattle.record.specs.Shape.Laws.{Accepted};
ghost use Rattle.scatter.specs.Block.{t_of};
ghost use Rattle.scatter.specs.Cells.{index_of, place_of, corners_of, products_of, cells_from};
ghost use Rattle.scatter.specs.Geometry.{time_accepted, time_number, Timed, Geometry, Cornered, Small, Floored, Placed, geometry_of};

use crate::axis::AxisParts;
use record::refusal::Refusal;
use record::shape::FieldShape;

// A shape and a time, with the numbers of both that every block needs.
#[derive(Clone, Copy)]
pub struct Scatter {
    pub shape: FieldShape,
    pub time: i32,
    pub denom: i32,
    pub step_x: i32,
    pub step_y: i32,
    pub width: u32,
    pub height: u32,
    pub stride: usize,
    pub trash: usize,
}

// The four cells that a block adds to, and what it adds there.
#[derive(Clone, Copy)]
pub struct Cells {
    pub at: [usize; 4],
    pub value: [i32; 4],
}

// A time that a scatter takes.
pub fn is_time(time: i32) -> bool
    ensures { result ≡ time_accepted time }
{
    arith::in_range(-65535, 65535, time)
}

// A time: refused by 7 unless a scatter takes it.
#[tactic(auto, unfolding(crate::specs::Geometry::time_number, record::specs::Numbers::unless))]
pub fn check_time(time: i32) -> Result<(), Refusal>
    ensures { number_of result ≡ time_number time }
{
    if !is_time(time) {
        return Err(Refusal::Range);
    }
    Ok(())
}

impl Scatter {
    // Works out the numbers of a shape and a time.
    pub fn new(shape: FieldShape, time: i32) -> Scatter
        requires { (Accepted shape) × (Timed time) }
        ensures { result ≡ geometry_of shape time }
    {
        let width = record::shape::packed_width(shape);
        let height = record::shape::packed_height(shape);
        let stride = width + 2;
        Scatter {
            shape,
            time,
            denom: 256 * shape.pel,
            step_x: shape.block_w - shape.overlap_x,
            step_y: shape.block_h - shape.overlap_y,
            width: width as u32,
            height: height as u32,
            stride,
            trash: stride * (height + 2),
        }
    }

    // How far a component takes a block: time × v / (256 × pel), truncated to zero.
    pub fn moved(self, v: i16) -> i32
        requires { Geometry self }
        ensures { result ≡ t_of self.shape self.time v }
    {
        self.time * v as i32 / self.denom
    }

    // The index of the cell at a column and a row of the W × H.
    pub fn index(self, column: u32, row: u32) -> usize
        requires { (Geometry self) × (column < self.width) × (row < self.height) }
        ensures { result ≡ index_of self.shape column row }
    {
        (row as usize + 1) * self.stride + column as usize + 1
    }

    // The index of cell (x, y), or trash.
    pub fn place(self, x: i32, y: i32) -> usize
        requires { Geometry self }
        ensures { result ≡ place_of self.shape x y }
    {
        let column = arith::to_bits(x);
        let row = arith::to_bits(y);
        if self.width <= column {
            return self.trash;
        }
        if self.height <= row {
            return self.trash;
        }
        self.index(column, row)
    }

    // The four cells of a block whose first is (cx, cy).
    fn corners(self, cx: i32, cy: i32) -> [usize; 4]
        requires { Cornered self cx cy }
        ensures { result ≡ corners_of self.shape cx cy }
    {
        let right = cx + 1;
        let below = cy + 1;
        [
            self.place(cx, cy),
            self.place(right, cy),
            self.place(right, below),
            self.place(cx, below),
        ]
    }

    // The cells of a block at a column and a row that has moved by tx, ty, whose floors by the steps are qx, qy.
    pub fn cells(self, column: usize, row: usize, tx: i32, ty: i32, qx: i32, qy: i32) -> Cells
        requires { Floored self column row tx ty qx qy }
        ensures { result ≡ cells_from self.shape column row tx ty }
    {
        let x = crate::axis::parts(self.step_x, self.shape.block_w, column, tx, qx);
        let y = crate::axis::parts(self.step_y, self.shape.block_h, row, ty, qy);
        Cells {
            at: self.corners(x.cell, y.cell),
            value: products(x, y),
        }
    }

    // The cells of the block at a column and a row with vector x, y.
    pub fn of_vector(self, column: usize, row: usize, x: i16, y: i16) -> Cells
        requires { Placed self column row }
        ensures { result ≡ cells_from self.shape column row (t_of self.shape self.time x) (t_of self.shape self.time y) }
    {
        let tx = self.moved(x);
        let ty = self.moved(y);
        let qx = arith::floor_div(tx, self.step_x);
        let qy = arith::floor_div(ty, self.step_y);
        self.cells(column, row, tx, ty, qx, qy)
    }
}

// The products of a block's parts on both axes.
fn products(x: AxisParts, y: AxisParts) -> [i32; 4]
    requires { Small x.near x.far y.near y.far }
    ensures { result ≡ products_of x.near x.far y.near y.far }
{
    [
        y.near * x.near,
        y.near * x.far,
        y.far * x.far,
        x.near * y.far,
    ]
}
