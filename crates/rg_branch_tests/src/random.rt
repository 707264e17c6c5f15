//! Random systems whose rows bound their forms.

use crate::bounds::Top;
use rg_branch::Bounded;
use rg_linear::Row;
use std::alloc::{AllocError, Global};

/// Rows, forms, and a top row for each form.
#[derive(Drop)]
pub(crate) struct Asked {
    pub(crate) rows: Vec<Row>,
    pub(crate) forms: Vec<Bounded>,
    pub(crate) tops: Vec<Top>,
}

/// A linear congruential generator of 64 bits (Knuth, *The Art of Computer Programming*, volume 2).
#[derive(Drop)]
pub(crate) struct Generator {
    pub(crate) state: u64,
}

impl Generator {
    // A number from 0 to `most`.
    fn up_to(&mut self, most: u8) -> i64 {
        self.state = self
            .state
            .wrapping_mul(6364136223846793005)
            .wrapping_add(1442695040888963407);
        ((self.state >> 33) % (u64::from(most) + 1)) as i64
    }

    // So many numbers from `-most` to `most`.
    fn numbers(&mut self, alloc: Global, count: u32, most: u8) -> Result<Vec<i128>, AllocError> {
        let mut numbers = Vec::new(alloc);
        for _ in 0..count {
            let number = self.up_to(most).wrapping_sub(self.up_to(most));
            numbers.push(i128::from(number))?;
        }
        Ok(numbers)
    }

    // Adds two rows: 3 times a sum of the columns is at least a number, and at most the number and 1.
    fn add_strip(
        &mut self,
        alloc: Global,
        columns: u32,
        rows: &mut Vec<Row>,
    ) -> Result<(), AllocError> {
        let sum = self.numbers(alloc, columns, 2)?;
        let least = i128::from(self.up_to(6)) - 3;
        rows.push(Row::new(multiply(alloc, &sum, 3)?, -least))?;
        rows.push(Row::new(multiply(alloc, &sum, -3)?, least + 1))?;
        Ok(())
    }

    /// Returns a system of so many columns: up to 3 strips, and as many forms, each with two rows that bound it.
    pub(crate) fn asked(&mut self, alloc: Global, columns: u32) -> Result<Asked, AllocError> {
        let mut asked = Asked {
            rows: Vec::new(alloc),
            forms: Vec::new(alloc),
            tops: Vec::new(alloc),
        };
        for _ in 0..self.up_to(2).wrapping_add(1) {
            self.add_strip(alloc, columns, &mut asked.rows)?;
        }
        for j in 0..columns {
            let sum = self.form_sum(alloc, columns, j)?;
            self.add_form(alloc, sum, &mut asked)?;
        }
        Ok(asked)
    }

    // A column, or a sum of columns.
    fn form_sum(&mut self, alloc: Global, columns: u32, j: u32) -> Result<Vec<i128>, AllocError> {
        if self.up_to(2) == 0 {
            return self.numbers(alloc, columns, 2);
        }
        let mut sum = vec![in alloc; 0i128; columns as usize]?;
        if let Some(own) = sum.get_mut(j as usize) {
            *own = 1;
        }
        Ok(sum)
    }

    // Adds a form, a row of which it is a multiple and that bounds it from below, and a row that bounds it from
    // above.
    fn add_form(
        &mut self,
        alloc: Global,
        coeffs: Vec<i128>,
        asked: &mut Asked,
    ) -> Result<(), AllocError> {
        let scale = i128::from(self.up_to(1)) + 1;
        let times = i128::from(self.up_to(1)) + 1;
        let low = self.up_to(2).wrapping_sub(1);
        let high = low.wrapping_add(self.up_to(3));
        let row = u32::try_from(asked.rows.len()).unwrap_or(u32::MAX);
        let constant = scale.wrapping_mul(i128::from(low)).wrapping_neg();
        asked.forms.push(Bounded {
            scale,
            coeffs: multiply(alloc, &coeffs, times)?,
            low,
            high,
            row,
            times,
        })?;
        asked.tops.push(Top {
            row: row.saturating_add(1),
            times: 1,
        })?;
        let above = multiply(alloc, &coeffs, times.wrapping_neg())?;
        let least = constant.checked_div_euclid(times).unwrap_or(constant);
        asked.rows.push(Row::new(coeffs, least))?;
        let most = scale.wrapping_mul(i128::from(high));
        asked.rows.push(Row::new(above, most))?;
        Ok(())
    }
}

// The numbers, each times the factor.
fn multiply(alloc: Global, numbers: &[i128], factor: i128) -> Result<Vec<i128>, AllocError> {
    let mut products = Vec::new(alloc);
    for number in numbers {
        products.push(number.wrapping_mul(factor))?;
    }
    Ok(products)
}
